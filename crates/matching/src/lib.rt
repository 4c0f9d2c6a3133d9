// The theory of two sections compared vertex by vertex: that usable sections with the same words differ only by the numbers of inner
// vertices, in just one way. Definitions in specs/, theorems in proofs/, and no code.

#![tactic(auto)]
