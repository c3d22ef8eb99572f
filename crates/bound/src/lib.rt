// The bound of the third demand, over orders and loads as numbers: laws only. It has no function. Assumes nothing.

#![tactic(auto)]
