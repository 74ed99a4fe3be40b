// Stand-in: from any record that passes the check, a column of which it is the record.
#![tactic(auto)]

ghost use Rattle.std.specs.Prelude.{◌≡◌, ◌≤◌, ◌++◌, length, drop};
ghost use Rattle.rules.specs.StandIn.{stand_in};
ghost use Rattle.rules.specs.Bytes.{low_bits, parens};
ghost use Rattle.stand_in.specs.StandsIn.{StandsIn};
ghost use Rattle.stand_in.specs.Walk.{Ready, walked};

use answers::Refusal;
use checks::record::Record;

// The excess just after each closing, written to the first n numbers of the column, and n; or the first
// refusal of document 01's order. It takes a number of steps in proportion to n.
pub fn stand_in(bytes: &[u8], column: &mut [u32]) -> Result<usize, Refusal>
    ensures { StandsIn bytes.now column.old result column.new }
{
    let checked = Record::of(bytes)?;
    if column.len() < checked.entries {
        return Err(Refusal::OutputShort);
    }
    fill(checked, column);
    Ok(checked.entries)
}

// How far the walk along the parentheses is: the column that it writes, the excess now, and the closings passed.
#[derive(Drop)]
struct Walk<'a> {
    column: &'a mut [u32],
    excess: u32,
    closed: usize,
}

impl Walk<'_> {
    // Along the lowest bits of byte b, count of them. No bit decides a branch: each excess is stored, and only a
    // closing moves on to the next place.
    #[inline(always)]
    fn bits(&mut self, b: u8, count: usize)
        requires { Ready self.old (low_bits count b) }
        ensures lent { self.new.column.ghost_name ≡ self.old.column.ghost_name }
        ensures walks { self.new ≡ walked self.old (low_bits count b) }
    {
        let mut rest = u32::from(b);
        for _ in 0..count {
            let opens = rest % 2;
            let closes = 1 - opens;
            self.excess = self.excess + opens - closes;
            self.column[self.closed] = self.excess;
            self.closed += closes as usize;
            rest /= 2;
        }
    }
}

// The walk along all parentheses of a record: whole bytes, and what the last one has.
fn fill(checked: Record, column: &mut [u32])
    requires { checked.entries ≤ length column.old }
    ensures { column.new ≡ stand_in (parens checked.entry.entries checked.entry.bytes.now) ++ drop checked.entry.entries column.old }
{
    let n = checked.entries;
    let last = 4 + n / 4;
    let whole = &checked.bytes[4..last];
    let mut walk = Walk {
        column,
        excess: 0,
        closed: 0,
    };
    for &b in whole {
        walk.bits(b, 8);
    }
    if 0 < n % 4 {
        walk.bits(checked.bytes[last], 2 * (n % 4));
    }
}
