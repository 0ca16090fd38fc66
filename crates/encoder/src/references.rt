// The reference that is written for an unwritable scalar in html mode.

ghost use Rattle.std.specs.Prelude.{◌≡◌, ◌+◌, ◌≤◌, length};
ghost use Rattle.std.proofs.lemmas.List.Edits.{sets};
ghost use Rattle.standard.specs.Machine.{digits, reference};

// How many decimal digits a number has.
fn digits(c: u32) -> usize
    ensures { (result ≡ length (digits c c)) × (result ≤ c + 1) }
{
    if c < 10 {
        return 1;
    }
    digits(c / 10) + 1
}

// How many bytes the reference to a scalar has.
pub(crate) fn size(c: u32) -> usize
    ensures { (result ≡ length (reference c)) × (result ≤ c + 4) × (result ≤ 13) }
{
    digits(c) + 3
}

// The decimal digits of a number, written from a place on; the place behind them.
fn put_digits(room: &mut [u8], at: usize, c: u32) -> usize
    requires { at + length (digits c c) ≤ length room.old }
    ensures { (result ≡ at + length (digits c c)) × (room.new ≡ sets room.old at (digits c c)) }
{
    if c < 10 {
        room[at] = (c + 0x30) as u8;
        return at + 1;
    }
    let last = put_digits(room, at, c / 10);
    room[last] = (c % 10 + 0x30) as u8;
    last + 1
}

// A reference to a scalar, written from a place on; the place behind it.
pub(crate) fn put(room: &mut [u8], at: usize, c: u32) -> usize
    requires { at + length (reference c) ≤ length room.old }
    ensures { (result ≡ at + length (reference c)) × (room.new ≡ sets room.old at (reference c)) }
{
    room[at] = b'&';
    room[at + 1] = b'#';
    let last = put_digits(room, at + 2, c);
    room[last] = b';';
    last + 1
}
