// The numbers and small tables of the rules, pinned. There is no code here.
#![tactic(auto)]
