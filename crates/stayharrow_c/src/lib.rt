// The exports of the library for C and Rust programs: each is the function of that name in `stayharrow`, with its promise.
// include/stayharrow.h says the same to a C program.
#![tactic(auto)]

ghost use Rattle.std.specs.Prelude.{◌≡◌};
ghost use Rattle.rules.specs.Order.{check_says, ask_says};
ghost use Rattle.rules.specs.Drawer.{find_says, which_says};
ghost use Rattle.rules.specs.Window.{window_says, through_says};
ghost use Rattle.stayharrow.specs.Coded.{coded, coded_found, coded_whence, accepted};
ghost use Rattle.stayharrow.specs.Exports.{Built, Filled, QuickAsked, StoodIn, Appended};

#[unsafe(no_mangle)]
pub extern "C" fn stayharrow_build(column: &[u32], work: &mut [u16], out: &mut [u8]) -> u64
    ensures { Built column.now work.old out.old result work.new out.new }
{
    stayharrow::stayharrow_build(column, work, out)
}

#[unsafe(no_mangle)]
pub extern "C" fn stayharrow_check(bytes: &[u8]) -> u64
    ensures { result ≡ coded (accepted (check_says bytes.now)) }
{
    stayharrow::stayharrow_check(bytes)
}

#[unsafe(no_mangle)]
pub extern "C" fn stayharrow_fill(bytes: &[u8], summary: &mut [u16]) -> u64
    ensures { Filled bytes.now summary.old result summary.new }
{
    stayharrow::stayharrow_fill(bytes, summary)
}

#[unsafe(no_mangle)]
pub extern "C" fn stayharrow_ask(bytes: &[u8], i: usize, j: usize) -> u64
    ensures { result ≡ coded (ask_says bytes.now i j) }
{
    stayharrow::stayharrow_ask(bytes, i, j)
}

#[unsafe(no_mangle)]
pub extern "C" fn stayharrow_quick_ask(bytes: &[u8], summary: &[u16], i: usize, j: usize) -> u64
    ensures { QuickAsked bytes.now summary.now i j result }
{
    stayharrow::stayharrow_quick_ask(bytes, summary, i, j)
}

#[unsafe(no_mangle)]
pub extern "C" fn stayharrow_stand_in(bytes: &[u8], column: &mut [u32]) -> u64
    ensures { StoodIn bytes.now column.old result column.new }
{
    stayharrow::stayharrow_stand_in(bytes, column)
}

#[unsafe(no_mangle)]
pub extern "C" fn stayharrow_find(drawer: &[u8], r: usize) -> u64
    ensures { result ≡ coded_found (find_says drawer.now r) }
{
    stayharrow::stayharrow_find(drawer, r)
}

#[unsafe(no_mangle)]
pub extern "C" fn stayharrow_which(own: &[u8], shared: &[u8], r: usize) -> u64
    ensures { result ≡ coded_whence (which_says own.now shared.now r) }
{
    stayharrow::stayharrow_which(own, shared, r)
}

#[unsafe(no_mangle)]
pub extern "C" fn stayharrow_append(
    buffer: &mut [u8],
    used: usize,
    column: &[u32],
    work: &mut [u16],
) -> u64
    ensures { Appended buffer.old used column.now work.old result buffer.new work.new }
{
    stayharrow::stayharrow_append(buffer, used, column, work)
}

#[unsafe(no_mangle)]
pub extern "C" fn stayharrow_window(bytes: &[u8], first: usize, last: usize) -> u64
    ensures { result ≡ coded (accepted (window_says bytes.now first last)) }
{
    stayharrow::stayharrow_window(bytes, first, last)
}

#[unsafe(no_mangle)]
pub extern "C" fn stayharrow_window_ask(
    bytes: &[u8],
    first: usize,
    last: usize,
    i: usize,
    j: usize,
) -> u64
    ensures { result ≡ coded (through_says bytes.now first last i j) }
{
    stayharrow::stayharrow_window_ask(bytes, first, last, i, j)
}
