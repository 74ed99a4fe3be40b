// The summary, one parenthesis at a time.
use crate::plain;

// The 896 numbers of a record that passes its check. Of each block the last excess is its end, and the smallest its
// leaf; every 256th closing names its block; node v has the smaller of nodes 2v and 2v + 1.
pub fn of(bytes: &[u8]) -> [u16; 896] {
    let mut summary = [65535; 896];
    let mut excess = 0u16;
    let mut closed = 0usize;
    for p in 0..2 * plain::entries(bytes) {
        let block = p / 256 % 256;
        if plain::opening(bytes, p) {
            excess = excess.saturating_add(1);
        } else {
            if closed % 256 == 0 {
                summary[768 + closed / 256 % 128] = block as u16;
            }
            closed = closed.saturating_add(1);
            excess = excess.saturating_sub(1);
        }
        summary[block] = excess;
        summary[512 + block] = excess.min(summary[512 + block]);
    }
    for v in (1..256).rev() {
        summary[256 + v] = summary[256 + 2 * v].min(summary[257 + 2 * v]);
    }
    summary
}

// A slot; 65,535 where there is none.
pub fn at(summary: &[u16], x: usize) -> u16 {
    summary.get(x).copied().unwrap_or(65535)
}

// Whether one of the two slots that an ask from i to j begins with names a block that a record of n entries has not
// got.
pub fn strange(summary: &[u16], n: usize, i: usize, j: usize) -> bool {
    let blocks = n.div_ceil(128);
    [i, j]
        .iter()
        .any(|k| blocks <= usize::from(at(summary, 768 + k / 256)))
}
