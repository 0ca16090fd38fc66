// EUC-KR.

ghost use Rattle.std.specs.Prelude.{◌≡◌, List, [], ◌∷◌, ℕ, ◌-◌, take};
ghost use Rattle.standard.specs.Encodings.{lent};
ghost use Rattle.standard.specs.Sequences.EucKr.{euc_kr};
ghost use Rattle.sequences.specs.Code.{next_of};

use crate::{Sequence, code_point, gives, gives_pair, wrong};
use layouts::leads;

pub fn euc_kr(table: &[u32], b0: u8, b1: u8, have: usize) -> Option<Sequence>
    ensures { (xs : List ℕ) → next_of result ≡ euc_kr (lent table.now []) (b0 ∷ take (have - 1) (b1 ∷ xs)) }
{
    if b0 < 0x80 {
        return gives(1, b0 as u32);
    }
    if !leads(35, b0) {
        return wrong(1);
    }
    gives_pair(have, b1, code_point(35, &*table, b0, b1))
}
