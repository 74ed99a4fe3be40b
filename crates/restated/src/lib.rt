// Document 01's rules restated plainly, one entry and one bit at a time, and what else the programs share that
// run and compare. It promises to be safe and to end, and nothing more: what it says is compared, not cited.
#![tactic(auto)]

pub mod columns;
pub mod part;
pub mod plain;
pub mod random;
pub mod summary;
pub mod sums;
pub mod tally;
