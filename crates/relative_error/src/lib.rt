// No code: how far a float is from a fraction after k roundings, as laws in proofs/.
#![tactic(auto)]
