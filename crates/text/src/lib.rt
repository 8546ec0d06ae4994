// The meaning of rules as text: definitions in specs/, theorems in proofs/, no code.
#![tactic(auto)]
