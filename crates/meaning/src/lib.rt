// The meaning of the machine: definitions in specs/, theorems in proofs/, no code.
#![tactic(auto)]
