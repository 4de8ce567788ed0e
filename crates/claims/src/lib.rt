// The claims about pack and about whole lists of the eight calls. There is no code here.
#![tactic(auto)]
