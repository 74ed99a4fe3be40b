// Damaged records with the summary of the undamaged one, and foreign summaries: each outcome is a place from i to j,
// or 9, and 9 wherever one of the two slots names a block that the record has not got. Where the record passes its
// check and the summary is its own after all, the answer is the plain ask's.
use crate::made::{self, Pair};
use answers::Refusal;
use restated::columns::Kind;
use restated::random::Stretch;
use restated::tally::Tally;
use restated::{plain, random};
use std::io;

#[derive(Clone, Copy, Default)]
struct Outcomes {
    // asks with an outcome that is allowed
    allowed: Tally,
    // asks that must say 9
    nines: Tally,
    // asks with the record's own summary
    own: Tally,
}

impl Outcomes {
    // Twenty stretches.
    fn asks(&mut self, pair: &Pair, seed: u32) {
        let n = pair.entries();
        let bytes = pair.bytes();
        let summary = &pair.summary;
        let own = plain::check(bytes).is_ok() && *summary == restated::summary::of(bytes);
        let mut x = seed;
        for _ in 0..20 {
            x = random::next(x);
            let Stretch { i, j } = Stretch::of(x, n);
            let said = quick::quick_ask(bytes, summary, i, j);
            let nine = said == Err(Refusal::Foreign);
            self.allowed.count(said.map_or(nine, |q| i <= q && q <= j));
            if restated::summary::strange(summary, n, i, j) {
                self.nines.count(nine);
            }
            if own {
                self.own.count(said == ask::ask(bytes, i, j));
            }
        }
    }
}

// A record with its own summary.
fn own(k: u32) -> Pair {
    let kinds = [
        Kind::Random(2),
        Kind::Random(3),
        Kind::Random(4294967296),
        Kind::Noisy,
        Kind::Worst,
    ];
    Pair::of(kinds[(k % 5) as usize], made::length(k, 2048), k)
}

// One to four bits of the body turned over.
fn damaged(pair: &mut Pair, k: u32) {
    let n = pair.entries();
    let mut x = random::far(k);
    for _ in 0..1 + k % 4 {
        x = random::next(x);
        let p = 32 + random::place(x, 2 * n);
        if let Some(byte) = pair.record.get_mut(p / 8) {
            *byte ^= 1 << (p % 8);
        }
    }
}

// A summary of random numbers, of which more or fewer are some block's or some excess.
fn scattered(pair: &mut Pair, k: u32) {
    let n = pair.entries() as u64;
    let values = [65536, n / 128 + 2, n + 1, 2 * n];
    random::fill(&mut pair.summary, k, values[(k % 4) as usize]);
}

// The summary of another record.
fn another(pair: &mut Pair, k: u32) {
    let Pair { summary, .. } = own(k.wrapping_add(1));
    pair.summary = summary;
}

// One number of the summary changed: a block's end, a node, a leaf, or a closing's block; to one near the edges of
// what can stand there.
fn changed(pair: &mut Pair, k: u32) {
    let x = random::next(random::far(k));
    let n = pair.entries();
    let blocks = n.div_ceil(128);
    let slot = match k % 4 {
        0 => random::place(x, blocks),
        1 => 257 + random::place(x, 255),
        2 => 512 + random::place(x, blocks),
        _ => 768 + random::place(x, n / 256 + 1),
    };
    if let Some(number) = pair.summary.get_mut(slot) {
        *number = match k / 4 % 6 {
            0 => 0,
            1 => 65535,
            2 => number.wrapping_add(1),
            3 => number.wrapping_sub(1),
            4 => blocks as u16,
            _ => random::place(random::next(x), blocks) as u16,
        };
    }
}

fn many<F: Fn(&mut Pair, u32)>(rt: &impl Print, name: &str, change: F) -> io::Result<()>
    requires { F.IsAlwaysCallable change }
{
    let mut outcomes = Outcomes::default();
    for k in 0..1200 {
        let mut pair = own(k);
        change(&mut pair, k);
        outcomes.asks(&pair, k);
    }
    println!(rt; "{name}; {}", outcomes.allowed)?;
    println!(rt; "  must be 9; {}", outcomes.nines)?;
    println!(rt; "  its own after all; {}", outcomes.own)
}

pub fn all(rt: &impl Print) -> io::Result<()> {
    many(rt, "damaged records", damaged)?;
    many(rt, "summaries of random numbers", scattered)?;
    many(rt, "summaries of other records", another)?;
    many(rt, "summaries with one number changed", changed)
}
