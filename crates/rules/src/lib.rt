// The paper: the rules as definitions (specs/) and the laws of the definitions (proofs/). There is no code here.
#![tactic(auto)]
