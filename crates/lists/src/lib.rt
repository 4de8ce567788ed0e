// Lists of numbers: the definitions that every other crate's contracts share, and their laws. No code.
#![tactic(auto)]
