// A listing as it is; of a line of more than 100 characters its length and a digest.
use listing::Text;
use std::io;

const MODULUS: u64 = 1_000_000_007;

fn digest(text: &[u8]) -> u64 {
    // the remainder comes first, so that every step fits
    let step = |value: u64, byte: &u8| value % MODULUS * 131 + u64::from(*byte);
    text.iter().fold(0, step) % MODULUS
}

fn show(rt: &impl Print, text: &[u8]) -> io::Result<()> {
    if text.len() <= 100 {
        rt.write_all(text)
    } else {
        println!(rt; "{} characters, digest {}", text.len(), digest(text))
    }
}

pub fn listing(rt: &impl Print, drawer: &[u8]) -> io::Result<()> {
    let mut line = listing::buffer();
    let mut text = Text::over(&mut line);
    let mut rest = Some(listing::start(drawer));
    while rest.is_some() {
        rest = listing::next(drawer, rest, &mut text);
        show(rt, text.bytes())?;
    }
    Ok(())
}
