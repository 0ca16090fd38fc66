// windows-1252, whose index is built in.

ghost use Rattle.std.specs.Prelude.{◌≡◌, List, ◌∷◌, ℕ};
ghost use Rattle.standard.specs.Indexes.{windows1252};
ghost use Rattle.standard.specs.Sequences.SingleByte.{single_byte};
ghost use Rattle.sequences.specs.Code.{next_of};

use crate::{Sequence, gives};
use index::IRREGULAR;

pub fn windows_1252(b0: u8) -> Option<Sequence>
    ensures { (xs : List ℕ) → next_of result ≡ single_byte windows1252 (b0 ∷ xs) }
{
    if b0 < 0x80 {
        return gives(1, b0 as u32);
    }
    if b0 < 0xA0 {
        return gives(1, IRREGULAR[(b0 - 0x80) as usize]);
    }
    gives(1, b0 as u32)
}
