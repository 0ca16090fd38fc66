// The room that bytes are written into.

ghost use Rattle.std.specs.Prelude.{◌≡◌, ◌+◌, ◌≤◌, length};
ghost use Rattle.std.proofs.lemmas.List.Edits.{sets};

// Bytes, written from a place on; the place behind them.
pub(crate) fn put<const N: usize>(room: &mut [u8], at: usize, bytes: [u8; N]) -> usize
    requires { at + N ≤ length room.old }
    ensures { (result ≡ at + length bytes.entry) × (room.new ≡ sets room.old at bytes.entry) }
{
    room[at..at + N].copy_from_slice(&bytes);
    at + N
}
