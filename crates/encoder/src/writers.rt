// The writer of each encoding number: UTF-8, pairs, or one byte a scalar.

ghost use Rattle.std.specs.Prelude.{◌≡◌, true, ◌≤◌, length};
ghost use Rattle.standard.specs.Base.{scalars as are_scalars};
ghost use Rattle.standard.specs.Encodings.{lent};
ghost use Rattle.reverse_index_spec.specs.ReverseIndex.{look_up};
ghost use Rattle.encoder.specs.WriterCode.{pairs, writes, Tabled, lent_writing, front_of, most_of, handed_back, Space, Wrote};

use encoder_spec::Written;

// Does this encoding write pairs?
fn pairs(encoding: u8) -> bool
    ensures { result ≡ pairs encoding }
{
    (29..=35).contains(&encoding)
}

// Is there a writer for this encoding?
pub(crate) fn writes(encoding: u8) -> bool
    ensures { result ≡ writes encoding }
{
    encoding <= 28 || pairs(encoding) || encoding == 39
}

// The bytes that may stand in front of those of a scalar.
fn front(encoding: u8) -> usize
    ensures { (result ≡ front_of encoding) × (result ≤ 3) }
{
    if encoding == 33 { 3 } else { 0 }
}

// The most bytes that are written of one scalar.
pub(crate) fn most(encoding: u8, mode: u8) -> usize
    ensures { (result ≡ most_of encoding mode) × (result ≤ 13) }
{
    if encoding == 0 {
        return 4;
    }
    if mode != 1 {
        return 10 + front(encoding);
    }
    match encoding {
        30 => 4,
        33 => 5,
        _ if pairs(encoding) => 2,
        _ => 1,
    }
}

// How many bytes are written of the scalars from a state.
pub(crate) fn count(
    encoding: u8,
    mode: u8,
    state: u8,
    scalars: &[u32],
    t1: &[u32],
    t2: &[u32],
    links: &[u32],
) -> usize
    requires { (are_scalars scalars.now ≡ true) × (length scalars.now ≤ 16384) × Tabled encoding t1.now }
    ensures { result ≡ length (lent_writing (look_up t1.now links.now)
        encoding mode state (lent t1.now t2.now) scalars.now).bytes }
{
    if encoding == 0 {
        return crate::utf8::count(scalars);
    }
    if pairs(encoding) {
        return crate::pairs::count(encoding, mode, state, scalars, t1, links, t2);
    }
    crate::one_byte::count(encoding, mode, scalars, t1, links)
}

// An answer of a writer without a state, which hands it back.
fn handed_back(w: Written, state: u8) -> Written
    ensures { result ≡ handed_back state w }
{
    Written { state, ..w }
}

// The scalars written from a state into a room that has space for all their bytes.
pub(crate) fn write(
    encoding: u8,
    mode: u8,
    state: u8,
    scalars: &[u32],
    t1: &[u32],
    t2: &[u32],
    links: &[u32],
    room: &mut [u8],
) -> Written
    requires scalars_value { (are_scalars scalars.now ≡ true) × (length scalars.now ≤ 16384) × Tabled encoding t1.now }
    requires space { Space (lent_writing (look_up t1.now links.now) encoding mode state (lent t1.now t2.now) scalars.now) room.old }
    ensures { Wrote (lent_writing (look_up t1.now links.now)
        encoding mode state (lent t1.now t2.now) scalars.now)
        room.old result room.new }
{
    if encoding == 0 {
        let written = crate::utf8::write(scalars, room);
        return Written {
            written,
            index: 0,
            refusal: 0,
            state,
        };
    }
    if pairs(encoding) {
        return crate::pairs::write(encoding, mode, state, scalars, t1, links, t2, room);
    }
    let w = crate::one_byte::write(encoding, mode, scalars, t1, links, room);
    handed_back(w, state)
}
