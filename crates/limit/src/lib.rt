// The third demand, on the bytes of a list and a plan: laws only. It has no function. Assumes nothing.

#![tactic(auto)]
