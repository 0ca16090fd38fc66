// The refusals of the writer's call, in the papers' order: 2, 3, 5, 9, 4, 15, 8, 10, 7.

ghost use Rattle.std.specs.Prelude.{◌≡◌, true, ◌≤◌, ltb, length};
ghost use Rattle.standard.specs.Base.{is_scalar, scalars as are_scalars};
ghost use Rattle.standard.specs.Encodings.{lent};
ghost use Rattle.reverse_index_spec.specs.ReverseIndex.{look_up};
ghost use Rattle.encoder.specs.WriterCode.{number_of, number_in, Tabled, tables_fit, lent_writing, text_refusal, refusal_of};

use crate::writers::{count, most, writes};

// Why a call is refused, in the papers' order.
#[derive(Clone, Copy, PartialEq, Eq)]
pub(crate) enum Refusal {
    NoEncoding,
    NoMode,
    NoState,
    NoWriter,
    WrongTables,
    WrongIndex,
    TooLong,
    NoScalars,
    NoRoom,
}

// The papers' number of a refusal.
impl From<Refusal> for u8 {
    ghost from_gives = { λ refusal number. number ≡ number_of refusal };

    fn from(refusal: Refusal) -> u8 {
        match refusal {
            Refusal::NoEncoding => 2,
            Refusal::NoMode => 3,
            Refusal::NoState => 5,
            Refusal::NoWriter => 9,
            Refusal::WrongTables => 4,
            Refusal::WrongIndex => 15,
            Refusal::TooLong => 8,
            Refusal::NoScalars => 10,
            Refusal::NoRoom => 7,
        }
    }
}

fn is_scalar(c: u32) -> bool
    ensures { result ≡ is_scalar c }
{
    char::from_u32(c).is_some()
}

// Are all of them scalars? The others are counted: a loop with no return in it takes several numbers at once.
fn all_scalars(scalars: &[u32]) -> bool
    requires { length scalars.now ≤ 16384 }
    ensures { result ≡ are_scalars scalars.now }
{
    let mut others: u32 = 0;
    for c in scalars {
        others += u32::from(!is_scalar(*c));
    }
    others == 0
}

// Is a room of so many bytes too small? The bytes are counted only where the most of them would not fit.
fn lacks(
    encoding: u8,
    mode: u8,
    state: u8,
    scalars: &[u32],
    t1: &[u32],
    t2: &[u32],
    links: &[u32],
    room: usize,
) -> bool
    requires { (are_scalars scalars.now ≡ true) × (length scalars.now ≤ 16384) × Tabled encoding t1.now }
    ensures { result ≡
        ltb room (length (lent_writing (look_up t1.now links.now)
        encoding mode state (lent t1.now t2.now) scalars.now).bytes) }
{
    room < scalars.len() * most(encoding, mode)
        && room < count(encoding, mode, state, scalars, t1, t2, links)
}

// The refusals that depend on the scalars: 8, 10, 7.
fn text_refusal(
    encoding: u8,
    mode: u8,
    state: u8,
    scalars: &[u32],
    t1: &[u32],
    t2: &[u32],
    links: &[u32],
    room: usize,
) -> Result<(), Refusal>
    requires { Tabled encoding t1.now }
    ensures { number_in result ≡ text_refusal (look_up t1.now links.now)
        encoding mode state (lent t1.now t2.now) scalars.now room }
{
    if 16384 < scalars.len() {
        return Err(Refusal::TooLong);
    }
    if !all_scalars(scalars) {
        return Err(Refusal::NoScalars);
    }
    if lacks(encoding, mode, state, scalars, t1, t2, links, room) {
        return Err(Refusal::NoRoom);
    }
    Ok(())
}

// Are the lent tables' lengths as they must be for writing? ISO-2022-JP is lent the katakana cells beside the table of its reader.
fn tables_fit(encoding: u8, t1: &[u32], t2: &[u32]) -> bool
    ensures { result ≡ tables_fit encoding (lent t1.now t2.now) }
{
    if encoding != 33 {
        return index::tables_fit(encoding, t1, t2);
    }
    t2.len() == 63 && index::tables_fit(33, t1, &[])
}

// Is a call with so many bytes of room refused? An index that is lent has the right length, or not.
pub(crate) fn check(
    encoding: u8,
    mode: u8,
    state: u8,
    scalars: &[u32],
    t1: &[u32],
    t2: &[u32],
    links: &[u32],
    right: bool,
    room: usize,
) -> Result<(), Refusal>
    ensures { number_in result ≡ refusal_of (look_up t1.now links.now) right
        encoding mode state (lent t1.now t2.now) scalars.now room }
{
    if 39 < encoding {
        return Err(Refusal::NoEncoding);
    }
    if 1 < mode {
        return Err(Refusal::NoMode);
    }
    if 2 < state {
        return Err(Refusal::NoState);
    }
    if !writes(encoding) {
        return Err(Refusal::NoWriter);
    }
    if !tables_fit(encoding, t1, t2) {
        return Err(Refusal::WrongTables);
    }
    if !right {
        return Err(Refusal::WrongIndex);
    }
    text_refusal(encoding, mode, state, scalars, t1, t2, links, room)
}
