// Big5: 000, 11.1.2, and document 02, Ask 7.

ghost use Rattle.std.specs.Prelude.{◌≡◌, ◌||◌, eqb};
ghost use Rattle.standard.specs.Encoders.Big5.{big5_over, big5_encode};
ghost use Rattle.reverse_index_spec.specs.ReverseIndex.{look_up};
ghost use Rattle.pair_writers.specs.Pairs.{told, Helped};

use crate::{One, pairs};

// Six code points have their last pointer.
fn by_last(c: u32) -> bool
    ensures { result ≡ (eqb c 0x2550 || eqb c 0x255E || eqb c 0x2561 || eqb c 0x256A || eqb c 0x5341 || eqb c 0x5345) }
{
    matches!(c, 0x2550 | 0x255E | 0x2561 | 0x256A | 0x5341 | 0x5345)
}

// The pointers below 5,024 are passed over.
pub(crate) fn bytes_of(table: &[u32], links: &[u32], slots: &[u16], c: u32) -> One
    ensures { Helped 19782 big5_over table.now slots.now →
        told result ≡ big5_encode (look_up table.now links.now) c }
{
    if c < 0x80 {
        return One::Byte(c as u8);
    }
    if by_last(c) {
        return pairs::at(31, reverse_index::last_outside(table, links, 0, 5023, c), c);
    }
    pairs::pair(31, table, links, slots, 0, 5023, c)
}
