// Document 01, "Order of checks": find, the hand-out, and the look through two drawers. All of them read
// bytes and change nothing; a find walks the records' heads alone, and judges no bit inside.
#![tactic(auto)]

ghost use Rattle.std.specs.Prelude.{◌≡◌, ◌+◌, ◌≤◌, length, take, drop};
ghost use Rattle.rules.specs.Drawer.{seek, find_says, hand_out, in_shared, look_says, look_part, which_says};
ghost use Rattle.drawer.specs.Said.{said_found, said_choice, said_whence};

use answers::Refusal;

// Where a record stands: its place in the drawer, and its length.
#[derive(Clone, Copy, Debug, PartialEq, Eq)]
pub struct Place {
    pub at: usize,
    pub size: usize,
}

// The two drawers that a look goes through.
#[derive(Clone, Copy, Debug, PartialEq, Eq)]
pub enum Drawer {
    Own,
    Shared,
}

impl Drawer {
    ghost use Rattle.drawer.specs.Said.{the_one};

    // This one of the two.
    fn of<'a>(self, own: &'a [u8], shared: &'a [u8]) -> &'a [u8]
        ensures { result.now ≡ the_one self own.now shared.now }
    {
        match self {
            Drawer::Own => own,
            Drawer::Shared => shared,
        }
    }
}

// Why a look has no record: the drawer that refused, and its refusal.
#[derive(Clone, Copy, Debug, PartialEq, Eq)]
pub struct Denied {
    pub by: Drawer,
    pub refusal: Refusal,
}

// What a look decides: the drawer, and where in it the record stands.
#[derive(Clone, Copy)]
struct Choice {
    from: Drawer,
    place: Place,
}

// The record that begins at a place, by its head alone: 10 where the drawer ends there, else what its frame says.
pub fn record_at(drawer: &[u8], at: usize) -> Result<Place, Refusal>
    ensures { said_found result ≡ seek drawer.now 0 at }
{
    if drawer.len() <= at {
        return Err(Refusal::NoRecord);
    }
    let n = checks::frame(&drawer[at..])?;
    let size = 4 + (n + 3) / 4;
    Ok(Place { at, size })
}

// Find r: 12; 10 for r of 64 or more; then frames from record 0 through r, the first fault deciding; 10 if
// the drawer ends cleanly before r. It takes a number of steps in proportion to r.
pub fn find(drawer: &[u8], r: usize) -> Result<Place, Refusal>
    ensures { said_found result ≡ find_says drawer.now r }
{
    if 65536 < drawer.len() {
        return Err(Refusal::DrawerLong);
    }
    if 64 <= r {
        return Err(Refusal::NoRecord);
    }
    let mut at = 0;
    for _ in 0..r {
        let passed = record_at(drawer, at)?;
        at = passed.at + passed.size;
    }
    record_at(drawer, at)
}

// The part of a drawer that a record takes up.
fn part(drawer: &[u8], place: Place) -> &[u8]
    requires { place.at + place.size ≤ length drawer.now }
    ensures { result.now ≡ take place.size (drop place.at drawer.now) }
{
    let end = place.at + place.size;
    &drawer[place.at..end]
}

// The hand-out of record r: exactly that part of the drawer, or a part of length 0 where find refuses. It
// takes a number of steps in proportion to r, and copies nothing.
pub fn hand_out(drawer: &[u8], r: usize) -> &[u8]
    ensures { result.now ≡ hand_out drawer.now r }
{
    match find(drawer, r) {
        Ok(place) => part(drawer, place),
        Err(_) => &drawer[0..0],
    }
}

// What find says in the shared drawer.
fn in_shared(shared: &[u8], r: usize) -> Result<Choice, Denied>
    ensures { said_choice result ≡ in_shared (find_says shared.now r) }
{
    let place = find(shared, r).map_err(|refusal| Denied {
        by: Drawer::Shared,
        refusal,
    })?;
    Ok(Choice {
        from: Drawer::Shared,
        place,
    })
}

// The own record r if there is one and its n is above 0; the shared one if own find says 10 or n is 0; any
// other refusal of the own drawer decides.
fn choose(own: &[u8], shared: &[u8], r: usize) -> Result<Choice, Denied>
    ensures { said_choice result ≡ look_says own.now shared.now r }
{
    match find(own, r) {
        Ok(place) if 0 < checks::head(part(own, place)) => Ok(Choice {
            from: Drawer::Own,
            place,
        }),
        Err(refusal) if refusal != Refusal::NoRecord => Err(Denied {
            by: Drawer::Own,
            refusal,
        }),
        _ => in_shared(shared, r),
    }
}

// The look through a pass's own drawer and the shared one, for one r in both: a part of one of the two, or a
// part of length 0. It takes a number of steps in proportion to r.
pub fn look<'a>(own: &'a [u8], shared: &'a [u8], r: usize) -> &'a [u8]
    ensures { result.now ≡ look_part own.now shared.now (look_says own.now shared.now r) }
{
    match choose(own, shared, r) {
        Ok(choice) => part(choice.from.of(own, shared), choice.place),
        Err(denied) => &denied.by.of(own, shared)[0..0],
    }
}

// Which drawer the part of a look comes from, or the refusal and the drawer that gave it.
pub fn which(own: &[u8], shared: &[u8], r: usize) -> Result<Drawer, Denied>
    ensures { said_whence result ≡ which_says own.now shared.now r }
{
    Ok(choose(own, shared, r)?.from)
}
