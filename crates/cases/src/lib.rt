// The marked cases of document 01: one list in specs/, one theorem in proofs/, and no code.

#![tactic(auto)]
