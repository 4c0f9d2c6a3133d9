// The theory of runs, words of a table that share a beginning: a test for rectangular tables and the numbers of vertices. No code.

#![tactic(auto)]
