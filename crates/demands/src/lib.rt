// The paper's three demands, over the statements of the calls. This crate has no code: specs/ says what is demanded, proofs/ proves it.
#![tactic(auto)]
