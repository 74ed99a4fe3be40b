// Drawers made by rule, what an append is lent, and what the calls say: for the program that runs and compares them.
#![tactic(auto)]

pub mod kinds;
pub mod lent;
pub mod told;
