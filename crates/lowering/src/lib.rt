// Tables lowered to least totals, as functions of lists: the sweep, an edge spread through a joined table, and what is looked at between. This crate has no
// code: specs/ says what the code of joining, first, spreads, tables and wide computes, proofs/Theory what is true of it over any ranges, and proofs/Laws how what
// that code reads comes to it.
#![tactic(auto)]
