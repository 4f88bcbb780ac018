// What readers with different limits of profile entries have in common. There is no code here.
#![tactic(auto)]
