// The single-byte encodings.

ghost use Rattle.std.specs.Prelude.{◌≡◌, List, ◌∷◌, ℕ};
ghost use Rattle.standard.specs.Sequences.SingleByte.{single_byte};
ghost use Rattle.sequences.specs.Code.{next_of};

use crate::{Sequence, gives, gives_code};
use index::cell;

pub fn single_byte(table: &[u32], b0: u8) -> Option<Sequence>
    ensures { (xs : List ℕ) → next_of result ≡ single_byte table.now (b0 ∷ xs) }
{
    if b0 < 0x80 {
        return gives(1, b0 as u32);
    }
    gives_code(1, cell(&*table, (b0 - 0x80) as usize))
}
