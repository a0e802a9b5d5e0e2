// Laws of truth values and lists that several crates need (proofs/). There is no code here.
#![tactic(auto)]
