// The claim about every list of calls, of the program: each call known by its contract alone. There is no code here.
#![tactic(auto)]
