// Laws of the model's definitions, in proofs/. This crate has no code.
#![tactic(auto)]
