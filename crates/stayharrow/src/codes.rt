// An answer as one number: specs/Coded.antt says which bit means what.
ghost use Rattle.std.specs.Prelude.{◌≡◌};
ghost use Rattle.answers.specs.Said.{number, said};
ghost use Rattle.drawer.specs.Said.{said_drawer};
ghost use Rattle.stayharrow.specs.Coded.{coded, accepted, refused, drawer_bit};

use answers::Refusal;
use drawer::{Denied, Drawer};

// A refusal: bit 63 beside its number.
pub fn refusal(x: Refusal) -> u64
    ensures { result ≡ refused 0 0 (number x) }
{
    9223372036854775808 + (usize::from(x) as u64)
}

// The same of the shared drawer: bit 40 too.
pub fn refusal_of_shared(x: Refusal) -> u64
    ensures { result ≡ refused 1 0 (number x) }
{
    1099511627776 + refusal(x)
}

// Which drawer it is: 0 own, 1 shared.
pub fn drawer(from: Drawer) -> u64
    ensures { result ≡ drawer_bit (said_drawer from) }
{
    match from {
        Drawer::Own => 0,
        Drawer::Shared => 1,
    }
}

// A refusal, with the drawer that gave it in bit 40.
pub fn denial(denied: Denied) -> u64
    ensures { result ≡ refused (drawer_bit (said_drawer denied.by)) 0 (number denied.refusal) }
{
    match denied.by {
        Drawer::Own => refusal(denied.refusal),
        Drawer::Shared => refusal_of_shared(denied.refusal),
    }
}

// The number that an entry point answers, or its refusal.
pub fn code(answer: Result<usize, Refusal>) -> u64
    ensures { result ≡ coded (said answer) }
{
    match answer {
        Ok(v) => v as u64,
        Err(x) => refusal(x),
    }
}

// 0 where nothing is refused.
pub fn acceptance(answer: Result<usize, Refusal>) -> u64
    ensures { result ≡ coded (accepted (said answer)) }
{
    match answer {
        Ok(_) => 0,
        Err(x) => refusal(x),
    }
}
