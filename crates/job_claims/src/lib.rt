// The claims about jobs: each is a list of calls, and its answer what they tell. There is no code here.
#![tactic(auto)]
