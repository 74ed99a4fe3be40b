// The library for C and Rust: the entry points under plain names, each a proved one whose answer is put into
// one number (specs/Coded.antt). include/stayharrow.h says the same to a C program. A slice is a pointer and
// a length in elements. No function asks anything of its bytes and numbers.
#![tactic(auto)]

ghost use Rattle.std.specs.Prelude.{◌≡◌};
ghost use Rattle.rules.specs.Order.{check_says, ask_says};
ghost use Rattle.rules.specs.Drawer.{find_says, which_says};
ghost use Rattle.rules.specs.Window.{window_says, through_says};
ghost use Rattle.stayharrow.specs.Coded.{coded, coded_found, coded_whence, accepted};
ghost use Rattle.stayharrow.specs.Exports.{Built, Filled, QuickAsked, StoodIn, Appended};

mod codes;

// The column's record at the start of the output: its length. The first n work numbers end at 0.
pub fn stayharrow_build(column: &[u32], work: &mut [u16], out: &mut [u8]) -> u64
    ensures { Built column.now work.old out.old result work.new out.new }
{
    codes::code(build::build(column, work, out))
}

// Whether the bytes are a record that is whole, clean and balanced: 0.
pub fn stayharrow_check(bytes: &[u8]) -> u64
    ensures { result ≡ coded (accepted (check_says bytes.now)) }
{
    codes::acceptance(checks::check(bytes))
}

// The record's summary in the first 896 numbers: 0.
pub fn stayharrow_fill(bytes: &[u8], summary: &mut [u16]) -> u64
    ensures { Filled bytes.now summary.old result summary.new }
{
    codes::acceptance(summary::fill(bytes, summary))
}

// The leftmost smallest entry from i to j, both counted in, from the record alone: its place.
pub fn stayharrow_ask(bytes: &[u8], i: usize, j: usize) -> u64
    ensures { result ≡ coded (ask_says bytes.now i j) }
{
    codes::code(ask::ask(bytes, i, j))
}

// The same, quickly, from the record and the summary that was filled from it. With another summary some place
// from i to j, or 9.
pub fn stayharrow_quick_ask(bytes: &[u8], summary: &[u16], i: usize, j: usize) -> u64
    ensures { QuickAsked bytes.now summary.now i j result }
{
    codes::code(quick::quick_ask(bytes, summary, i, j))
}

// A column that has this record, in the first n numbers: n.
pub fn stayharrow_stand_in(bytes: &[u8], column: &mut [u32]) -> u64
    ensures { StoodIn bytes.now column.old result column.new }
{
    codes::code(stand_in::stand_in(bytes, column))
}

// Record r of a drawer: its place and, in the low 32 bits, its length.
pub fn stayharrow_find(drawer: &[u8], r: usize) -> u64
    ensures { result ≡ coded_found (find_says drawer.now r) }
{
    match drawer::find(drawer, r) {
        Ok(part) => (part.at as u64) * 4294967296 + (part.size as u64),
        Err(x) => codes::refusal(x),
    }
}

// The drawer that a look for record r takes its part from: 0 own, 1 shared; or the refusal, with the drawer
// that gave it in bit 40.
pub fn stayharrow_which(own: &[u8], shared: &[u8], r: usize) -> u64
    ensures { result ≡ coded_whence (which_says own.now shared.now r) }
{
    match drawer::which(own, shared, r) {
        Ok(from) => codes::drawer(from),
        Err(denied) => codes::denial(denied),
    }
}

// The column's record behind the used bytes of a drawer's buffer: the new used length.
pub fn stayharrow_append(buffer: &mut [u8], used: usize, column: &[u32], work: &mut [u16]) -> u64
    ensures { Appended buffer.old used column.now work.old result buffer.new work.new }
{
    codes::code(append::append(buffer, used, column, work))
}

// Whether a window on the record from first to last stands: 0.
pub fn stayharrow_window(bytes: &[u8], first: usize, last: usize) -> u64
    ensures { result ≡ coded (accepted (window_says bytes.now first last)) }
{
    codes::acceptance(window::refusal_of(bytes, first, last))
}

// An ask in that window: the place of the leftmost smallest entry from i to j.
pub fn stayharrow_window_ask(bytes: &[u8], first: usize, last: usize, i: usize, j: usize) -> u64
    ensures { result ≡ coded (through_says bytes.now first last i j) }
{
    codes::code(window::ask_through(bytes, first, last, i, j))
}
