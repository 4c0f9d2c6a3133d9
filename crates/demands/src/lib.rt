// The demands, and what a later request claims beyond them, as theorems about the definitions of what the calls leave: statements in
// specs/, why they hold in proofs/, and no code.

#![tactic(auto)]
