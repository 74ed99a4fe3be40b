// What lent buffers hold behind a call.

// Work lent full of 7, of which the first n numbers are 0 and the rest unchanged.
pub fn cleared(work: &[u16], n: usize) -> bool {
    let (used, rest) = work.split_at(n.min(work.len()));
    used.iter().all(|&number| number == 0) && rest.iter().all(|&number| number == 7)
}

// Output lent full of EE, unchanged from the byte at size on.
pub fn kept(out: &[u8], size: usize) -> bool {
    out.iter().skip(size).all(|&byte| byte == 0xEE)
}
