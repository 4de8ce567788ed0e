// The claims about reads: what a read tells and leaves, and a table that is read, packed and read again.
#![tactic(auto)]
