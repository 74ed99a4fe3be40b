// Lists the drawer on standard input: document 01, "The listing".
#![tactic(auto)]

ghost use Rattle.std.specs.Prelude.{OnOk};
ghost use Rattle.std.specs.Io.KnownBytes.{Appends};
ghost use Rattle.rules.specs.Listing.{listing};

use listing::Text;
use std::io::{self, Write};

// Line by line, until nothing is left or the output takes no more. Where all is written, it is the listing.
fn write_lines<W: Write>(drawer: &[u8], out: &mut W) -> io::Result<()>
    ensures { OnOk result (Appends (W.contents out.old) (W.contents out.new) (listing drawer.now)) }
{
    let mut line = listing::buffer();
    let mut text = Text::over(&mut line);
    let mut rest = Some(listing::start(drawer));
    while rest.is_some() {
        rest = listing::next(drawer, rest, &mut text);
        out.write_all(text.bytes())?;
    }
    Ok(())
}

fn main(rt: HostRuntime) -> io::Result<()> {
    // one byte more than a drawer may have
    let mut space = [0u8; 65537];
    let n = input::read_full(&mut rt.stdin(), &mut space)?;
    write_lines(&space[..n], &mut rt.stdout())
}
