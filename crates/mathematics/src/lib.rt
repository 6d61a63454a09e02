// The mathematics of covers, prices and bounds. All of it stands in specs/ (definitions) and proofs/ (theorems): no code is needed to state it.
#![tactic(auto)]
