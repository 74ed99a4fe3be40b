// The listing, run over many drawers: every refusal, no entries, 64 and 65 records, 65,536 and 65,537 bytes, a
// record of 32,768 entries, and drawers by chance. The drawers stand on standard input in a short form: a part is
// its times and its length, two bytes each, low byte first, and its bytes; times of 0 ends a drawer. What is
// written is compared with the file stdout. tests/list_cases.py makes both.
#![tactic(auto)]

mod parts;
mod show;
mod space;

use parts::{Part, Parts};
use space::Drawer;
use std::io;

// Each drawer in turn, up to the first part that is not whole.
fn cases(rt: &impl Print, input: &[u8]) -> io::Result<()> {
    let mut drawer = Drawer::new();
    for part in Parts(input) {
        match part {
            Part::Bytes { times, bytes } => {
                for _ in 0..times {
                    drawer.put(bytes);
                }
            }
            Part::End => {
                show::listing(rt, drawer.bytes())?;
                drawer.clear();
            }
        }
    }
    Ok(())
}

fn main(rt: HostRuntime) -> io::Result<()> {
    let mut text = [0u8; 8192];
    let n = input::read_full(&mut rt.stdin(), &mut text)?;
    cases(&rt, &text[..n])
}
