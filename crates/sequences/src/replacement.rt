// replacement.

ghost use Rattle.std.specs.Prelude.{◌≡◌, List, ◌∷◌, ℕ, eqb};
ghost use Rattle.standard.specs.Sequence.{shift};
ghost use Rattle.standard.specs.Sequences.Replacement.{replacement};
ghost use Rattle.sequences.specs.Code.{next_of};

use crate::{Sequence, fails, says_nothing};

pub fn replacement(flag: u8) -> Option<Sequence>
    ensures { (state b : ℕ) (xs : List ℕ) → next_of result ≡ replacement (shift state (eqb flag 1)) (b ∷ xs) }
{
    if flag == 1 {
        return says_nothing(1, 0, true);
    }
    fails(1, 0, true)
}
