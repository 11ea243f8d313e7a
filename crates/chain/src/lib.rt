// The chain of reasons of a refused night (document 02, item 4). This crate has no code: specs/ holds the item's definitions, proofs/ what is true of
// the list of reasons, over any plan in range.
#![tactic(auto)]
