// The seven calls on the two stores as definitions: what each tells and leaves, and the laws about it. There is no code here.
#![tactic(auto)]
