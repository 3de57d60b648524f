// Definitions (specs/) and laws (proofs/) of bits, of lists and of pages, over any width, element and list.
// There is no code here.

#![tactic(auto)]
