// x-user-defined.

ghost use Rattle.std.specs.Prelude.{◌≡◌, List, ◌∷◌, ℕ};
ghost use Rattle.standard.specs.Sequences.UserDefined.{user_defined};
ghost use Rattle.sequences.specs.Code.{next_of};

use crate::{Sequence, gives};

pub fn user_defined(b0: u8) -> Option<Sequence>
    ensures { (xs : List ℕ) → next_of result ≡ user_defined (b0 ∷ xs) }
{
    if b0 < 0x80 {
        return gives(1, b0 as u32);
    }
    gives(1, 0xF780 + ((b0 - 0x80) as u32))
}
