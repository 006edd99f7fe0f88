// That the answer worked out in floats lies near the exact mean, in proofs/. This crate has no code.
#![tactic(auto)]
