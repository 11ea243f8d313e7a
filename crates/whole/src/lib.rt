// Signed whole numbers, indices of tables and sums of lists, as proofs of this project use them. This crate has no code:
// its definitions are in specs/ and its lemmas in proofs/.
#![tactic(auto)]
