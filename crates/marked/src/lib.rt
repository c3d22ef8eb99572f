// The twelve cases that the paper marks with a P: laws only. It has no function. Assumes nothing.

#![tactic(auto)]
