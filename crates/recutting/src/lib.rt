// What follows from the contracts of the calls alone where a search cuts missing atoms and runs again: two passes on one graph under more cuts, and
// preparation beside the loop test (specs/Recutting, proofs/RecuttingLaws). There is no code here.
#![tactic(auto)]
