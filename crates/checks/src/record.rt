// A record that has passed its check: whoever holds one need not check again.
ghost use Rattle.std.specs.Prelude.{◌≡◌, IfOk};
ghost use Rattle.rules.specs.Refusal.{answer};
ghost use Rattle.rules.specs.Order.{check_says};

use answers::Refusal;

// The bytes, and the n that they say.
#[derive(Clone, Copy)]
pub struct Record<'a> {
    pub bytes: &'a [u8],
    pub entries: usize,
    pub ghost accepted: { check_says bytes.now ≡ answer entries },
}

impl<'a> Record<'a> {
    ghost use Rattle.checks.specs.Record.{said_record};

    // The record check of these bytes: frame, 11, 6, 7.
    pub fn of(bytes: &'a [u8]) -> Result<Record<'a>, Refusal>
        ensures says { said_record result ≡ check_says bytes.now }
        ensures keeps { IfOk result (λ r. r.bytes.now ≡ bytes.now) }
    {
        let entries = crate::check(bytes)?;
        Ok(Record { bytes, entries })
    }
}
