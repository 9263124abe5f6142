// Every choice of undecided numbers (document 02, requests 12 and 13): what is missing under all of them, under some, and how often.
// specs/ has the definitions, proofs/ the theorems; there is no code here.
#![tactic(auto)]
