// What the contracts of the loop test and of the pass say on document 01's cases C1 to C12: the outcomes of the table (proofs/ShownLaws).
// There is no code here.
#![tactic(auto)]
