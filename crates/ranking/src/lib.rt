// The theory of the k best of a list, and of the k best paths of a chain: definitions in specs/, theorems in proofs/, and no code.

#![tactic(auto)]
