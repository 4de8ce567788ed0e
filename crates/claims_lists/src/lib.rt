// The claims about lists of all calls, in which a read, a batch and a promotion stand for several. There is no code here.
#![tactic(auto)]
