// The three demands (specs/) and that they hold (proofs/), over what the calls promise. There is no code here.

#![tactic(auto)]
