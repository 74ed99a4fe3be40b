// The calls, each shown in a row, and how many of them answered or were refused with each number.
use drawers::told::{At, Handed, Which};
use restated::tally::Seen;
use shown::Said;
use std::io;

#[derive(Drop)]
pub struct Calls<P> {
    pub rt: P,
    pub seen: Seen,
}

impl<P: Print> Calls<P> {
    pub fn new(rt: P) -> Calls<P> {
        Calls {
            rt,
            seen: Seen::default(),
        }
    }

    // What find says of a record, and the part handed out.
    pub fn find(&mut self, drawer: &[u8], r: usize) -> io::Result<()> {
        let found = drawer::find(drawer, r);
        self.seen.see(&found);
        let part = drawer::hand_out(drawer, r);
        println!(self.rt; "  find {r}:{}; {}", Said(found.map(At)), Handed(part))
    }

    pub fn finds(&mut self, drawer: &[u8], records: &[usize]) -> io::Result<()> {
        for &r in records {
            self.find(drawer, r)?;
        }
        Ok(())
    }

    // What which says of a record, and the part that the look finds.
    pub fn look(&mut self, own: &[u8], shared: &[u8], r: usize) -> io::Result<()> {
        let which = drawer::which(own, shared, r);
        self.seen.see(&which.map_err(|denied| denied.refusal));
        let part = drawer::look(own, shared, r);
        println!(self.rt; "  look {r}: {}; {}", Which(which), Handed(part))
    }

    pub fn looks(&mut self, own: &[u8], shared: &[u8], records: &[usize]) -> io::Result<()> {
        for &r in records {
            self.look(own, shared, r)?;
        }
        Ok(())
    }

    pub fn show(&self) -> io::Result<()> {
        for (number, &count) in self.seen.counts.iter().enumerate() {
            match number {
                _ if count == 0 => {}
                0 => println!(self.rt; "answered: {count}")?,
                _ => println!(self.rt; "refused {number}: {count}")?,
            }
        }
        Ok(())
    }
}
