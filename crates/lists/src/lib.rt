// Laws of lists and of searches over indexes that every layer uses. There is no code here.
#![tactic(auto)]
