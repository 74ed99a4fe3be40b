// Shapes, records and the order of their checks.
ghost use Rattle.std.specs.Prelude.{IfOk, IfSome, ◌<◌, ◌≤◌, length};

use answers::Refusal;

// The leftmost smallest place from i to j, as far as the column goes.
pub fn least(column: &[u32], i: usize, j: usize) -> Option<usize>
    ensures { IfSome result (λ k. k < length column.now) }
{
    column
        .iter()
        .enumerate()
        .skip(i)
        .take_while(|&(k, _)| k <= j)
        .min_by_key(|&(_, entry)| *entry)
        .map(|(k, _)| k)
}

// Parentheses, written as bits from the first byte's lowest one on.
#[derive(Drop)]
struct Parens<'a> {
    bytes: &'a mut [u8],
    count: usize,
}

impl Parens<'_> {
    // The next one, an opening or a closing, with the bits above it 0.
    fn push(&mut self, opening: bool) {
        let p = self.count;
        if let Some(byte) = self.bytes.get_mut(p / 8) {
            let below = if p % 8 == 0 { 0 } else { *byte };
            *byte = below | u8::from(opening) << (p % 8);
        }
        self.count = p.saturating_add(1);
    }

    // The shape of a column: an opening, the shape of the entries before the leftmost smallest one, a closing, the
    // shape of the entries after it.
    fn shape(&mut self, column: &[u32]) {
        let Some(m) = least(column, 0, column.len()) else {
            return;
        };
        self.push(true);
        self.shape(&column[..m]);
        self.push(false);
        self.shape(&column[m + 1..]);
    }
}

// The length of a record of n entries.
pub fn size(n: usize) -> usize {
    4 + n.div_ceil(4)
}

// The head of a record of n entries, of whose number it has two bytes.
pub fn head(n: impl Into<usize>) -> [u8; 4] {
    let [low, high, ..] = n.into().to_le_bytes();
    [0x52, 0x4D, low, high]
}

// The record of a column, at the start of the output. It gives the length.
pub fn record(column: &[u32], out: &mut [u8]) -> usize {
    let n = column.len();
    let Some((first, bytes)) = out.split_first_chunk_mut::<4>() else {
        return 0;
    };
    *first = head(n);
    let mut parens = Parens { bytes, count: 0 };
    parens.shape(column);
    size(n)
}

fn at(bytes: &[u8], k: usize) -> u8 {
    bytes.get(k).copied().unwrap_or(0)
}

// n, as the head says it.
pub fn entries(bytes: &[u8]) -> usize
    ensures { result < 65536 }
{
    usize::from(u16::from_le_bytes([at(bytes, 2), at(bytes, 3)]))
}

// Whether parenthesis p of a record is an opening.
pub fn opening(bytes: &[u8], p: usize) -> bool {
    at(bytes, 4 + p / 8) >> (p % 8) & 1 == 1
}

// The excess just after each closing, as far as the column goes; and whether the parentheses are balanced.
pub fn stand_in(bytes: &[u8], column: &mut [u32]) -> bool {
    let mut column = column.iter_mut();
    let mut excess = 0u32;
    for p in 0..2 * entries(bytes) {
        if opening(bytes, p) {
            excess = excess.saturating_add(1);
        } else {
            let Some(after) = excess.checked_sub(1) else {
                return false;
            };
            if let Some(entry) = column.next() {
                *entry = after;
            }
            excess = after;
        }
    }
    excess == 0
}

// What the frame says: n, or a refusal.
pub fn frame(bytes: &[u8]) -> Result<usize, Refusal>
    ensures { IfOk result (λ n. n ≤ 32768) }
{
    if bytes.len() < 4 {
        return Err(Refusal::CutShort);
    }
    if !bytes.starts_with(&[0x52, 0x4D]) {
        return Err(Refusal::Unmarked);
    }
    let n = entries(bytes);
    if 32768 < n {
        return Err(Refusal::TooManyEntries);
    }
    if bytes.len() < size(n) {
        return Err(Refusal::CutShort);
    }
    Ok(n)
}

// What the check says: n, or a refusal.
pub fn check(bytes: &[u8]) -> Result<usize, Refusal> {
    let n = frame(bytes)?;
    if size(n) < bytes.len() {
        return Err(Refusal::BytesAfter);
    }
    if (2 * n..8 * n.div_ceil(4)).any(|p| opening(bytes, p)) {
        return Err(Refusal::UnusedBit);
    }
    if !stand_in(bytes, &mut []) {
        return Err(Refusal::Unbalanced);
    }
    Ok(n)
}
