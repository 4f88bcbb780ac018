// Demand 3 joined to the pair check. There is no code here.
#![tactic(auto)]
