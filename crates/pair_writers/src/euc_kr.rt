// EUC-KR: 000, 13.1.2, and document 02, Ask 7.

ghost use Rattle.std.specs.Prelude.{◌≡◌};
ghost use Rattle.standard.specs.Search.{pass_over};
ghost use Rattle.standard.specs.Encoders.EucKr.{euc_kr_encode};
ghost use Rattle.reverse_index_spec.specs.ReverseIndex.{look_up};
ghost use Rattle.pair_writers.specs.Pairs.{told, Helped};

use crate::{One, pairs};

// No pointer is passed over.
pub(crate) fn bytes_of(table: &[u32], links: &[u32], slots: &[u16], c: u32) -> One
    ensures { Helped 23940 (pass_over 1 0) table.now slots.now →
        told result ≡ euc_kr_encode (look_up table.now links.now) c }
{
    if c < 0x80 {
        return One::Byte(c as u8);
    }
    pairs::pair(35, table, links, slots, 1, 0, c)
}
