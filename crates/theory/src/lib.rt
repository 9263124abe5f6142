// The rules of the founded-support check over an abstract theory, and what follows from them alone.
// specs/ has the definitions, proofs/ the theorems; there is no code here.
#![tactic(auto)]
