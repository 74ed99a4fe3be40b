// Document 01's summary and quick ask, run: its rows, the order of checks, every number of a summary and many asks
// against the rules restated plainly, and asks with damaged records and foreign summaries. What is written is compared
// with the file stdout.
#![tactic(auto)]

mod foreign;
mod made;
mod own;
mod refused;
mod rows;

use std::io;

fn main(rt: HostRuntime) -> io::Result<()> {
    rows::falling(&rt)?;
    rows::five(&rt)?;
    refused::asks(&rt)?;
    refused::fills(&rt)?;
    own::columns(&rt)?;
    own::long(&rt)?;
    foreign::all(&rt)
}
