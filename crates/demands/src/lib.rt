// The customer's three demands as laws of what the public operations answer and leave: laws alone, no code.
#![tactic(auto)]
