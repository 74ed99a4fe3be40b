// Drawers too long to write out.
use restated::plain;

#[derive(Clone, Copy)]
pub enum Kind {
    // records of no entries and of one entry in turn
    InTurn,
    // records of no entries
    OfNone,
    // eight records of 65,536 bytes: seven of 32,768 entries, and one of 32,640; their bits are of no balanced
    // sequence
    OfMost,
}

// The same bytes again and again.
fn again(buffer: &mut [u8], bytes: &[u8]) {
    for (byte, &value) in buffer.iter_mut().zip(bytes.iter().cycle()) {
        *byte = value;
    }
}

// A record of 32,768 entries has 8,196 bytes.
fn of_most(buffer: &mut [u8]) {
    buffer.fill(0xA5);
    for (r, record) in buffer.chunks_mut(8196).enumerate() {
        let n: u16 = if r < 7 { 32768 } else { 32640 };
        for (byte, &value) in record.iter_mut().zip(&plain::head(n)) {
            *byte = value;
        }
    }
}

impl Kind {
    // The first bytes of such a drawer.
    pub fn fill(self, buffer: &mut [u8]) {
        match self {
            Kind::InTurn => again(buffer, &[0x52, 0x4D, 0, 0, 0x52, 0x4D, 1, 0, 1]),
            Kind::OfNone => again(buffer, &[0x52, 0x4D, 0, 0]),
            Kind::OfMost => of_most(buffer),
        }
    }
}
