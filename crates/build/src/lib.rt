// Build: a column's record, written in one pass from the right end of the column.
#![tactic(auto)]

mod pen;
mod spine;

ghost use Rattle.std.specs.Prelude.{◌/◌, ◌%◌, ◌≤◌, ◌≡◌, [], ◌∷◌, length};
ghost use Rattle.rules.specs.Bytes.{most};
ghost use Rattle.build.specs.Builds.{Builds};
ghost use Rattle.build.specs.Body.{Taken, Bodied};

use answers::Refusal;
use pen::Pen;
use spine::Spine;

// The column's record at the start of the output, answered by its length; or the first refusal in
// document 01's order. Equal entries: the leftmost counts as the smallest. Each entry is pushed once and
// popped at most once, so the steps are in proportion to n.
pub fn build(column: &[u32], work: &mut [u16], out: &mut [u8]) -> Result<usize, Refusal>
    ensures { Builds column.now work.old out.old result work.new out.new }
{
    let n = column.len();
    if 32768 < n {
        return Err(Refusal::TooManyEntries);
    }
    let size = 4 + n.div_ceil(4);
    if out.len() < size {
        return Err(Refusal::OutputShort);
    }
    if work.len() < n {
        return Err(Refusal::WorkShort);
    }
    let places = &mut work[..n];
    body(column, places, &mut out[4..size]);
    places.fill(0);
    head(&mut out[..4], n);
    Ok(size)
}

// The parentheses, from the last to the first, an entry a turn from the right. Each entry comes to the spine once and
// leaves it at most once, with its opening. The unused bits of the last byte are held as closings.
fn body(column: &[u32], work: &mut [u16], bytes: &mut [u8])
    requires { Taken column.now work.old bytes.old }
    ensures { Bodied column.now bytes.new }
{
    let n = column.len();
    let mut pen = Pen {
        left: bytes.len(),
        body: bytes,
        held: (8 - 2 * (n % 4)) % 8,
        acc: 0,
    };
    let mut spine = Spine {
        places: work,
        height: 0,
        top: 0,
    };
    for i in (0..n).rev() {
        let a = column[i];
        let k = spine.keeps(column, a);
        pen.opens(spine.height - k);
        pen.closes();
        spine.take(k, i, a);
    }
    pen.opens(spine.height);
}

// The mark, and n, low byte first.
fn head(front: &mut [u8], n: usize)
    requires { (length front.old ≡ 4) × (n ≤ most) }
    ensures { front.new ≡ 0x52 ∷ 0x4D ∷ n % 256 ∷ n / 256 ∷ [] }
{
    let [low, high] = (n as u16).to_le_bytes();
    front.copy_from_slice(&[0x52, 0x4D, low, high]);
}
