// The claims about a table sent down the cable: any cutting of its text gives the same, and the table comes back. There is no code here.
#![tactic(auto)]
