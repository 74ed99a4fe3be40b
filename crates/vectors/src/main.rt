// Document 01, "Numbers on both sides", run: the rows that concern build, check, plain ask and stand-in,
// each refusal and the order of those that compete, and many columns and byte strings against the rules
// restated plainly. What is written is compared with the file stdout.
#![tactic(auto)]

mod damage;
mod every;
mod lent;
mod long;
mod random;
mod refused;
mod small;
mod strings;

use std::io;

fn main(rt: HostRuntime) -> io::Result<()> {
    small::columns(&rt)?;
    small::asks(&rt)?;
    small::stand_ins(&rt)?;
    refused::all(&rt)?;
    long::columns(&rt)?;
    refused::long_columns(&rt)?;
    refused::long_records(&rt)?;
    every::bodies(&rt)?;
    random::columns(&rt)?;
    damage::records(&rt)?;
    strings::all(&rt)
}
