// What follows from the contracts of the calls alone for two graphs of equal content, in the same edition or in two: equal answers and equal lists (proofs/EditionLaws).
// There is no code here.
#![tactic(auto)]
