// Many calls in one: what the words of a batch say, and what carrying them out leaves and tells. There is no code here.
#![tactic(auto)]
