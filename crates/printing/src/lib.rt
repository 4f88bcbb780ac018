// Printing to standard output, for the programs: what the listers print.
#![tactic(auto)]

pub mod answers;
