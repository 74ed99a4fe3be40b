// Document 01's drawers, run: find, hand-out, look and which over drawers on both sides of each limit and with
// faults before, at and behind the record asked for; append with every two refusals that compete, and with
// what it changes. What is written is compared with the file stdout.
#![tactic(auto)]

mod appends;
mod calls;
mod chains;
mod faults;
mod finds;
mod limits;
mod looks;

use calls::Calls;
use std::io;

fn main(rt: HostRuntime) -> io::Result<()> {
    let mut calls = Calls::new(rt);
    finds::counts(&mut calls)?;
    finds::sizes(&mut calls)?;
    faults::inside(&mut calls)?;
    faults::cut(&mut calls)?;
    looks::all(&mut calls)?;
    looks::long(&mut calls)?;
    appends::all(&mut calls)?;
    limits::all(&mut calls)?;
    chains::three(&mut calls)?;
    chains::last(&mut calls)?;
    chains::many(&mut calls)?;
    calls.show()
}
