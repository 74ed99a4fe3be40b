// Document 01's paragraph on windows, run: windows that stand, each refusal of one, asks inside, at and outside
// the edges, and asks in refused windows. What is written is compared with the file stdout.
#![tactic(auto)]

mod every;
mod long;
mod refused;
mod wanted;

use std::io;

fn main(rt: HostRuntime) -> io::Result<()> {
    every::all(&rt)?;
    refused::all(&rt)?;
    long::falling(&rt)
}
