// What the writers of pairs share.

ghost use Rattle.std.specs.Prelude.{◌≡◌};
ghost use Rattle.standard.specs.Base.{within};
ghost use Rattle.standard.specs.Search.{pass_over, first};
ghost use Rattle.standard.specs.Encoders.Pairs.{pair_or_error_with, minus};
ghost use Rattle.index.specs.IndexCode.{pointer_of};
ghost use Rattle.layouts.specs.Rows.{layout_of};
ghost use Rattle.reverse_index_spec.specs.ReverseIndex.{look_up};
ghost use Rattle.pair_writers.specs.Pairs.{told, Aids, InRows, Inside};

use crate::{One, slots};

// Is it a katakana of half width?
pub(crate) fn katakana(c: u32) -> bool
    ensures { result ≡ within 0xFF61 c 0xFF9F }
{
    (0xFF61..=0xFF9F).contains(&c)
}

// U+2212 is looked up, and named in an error, as U+FF0D.
pub(crate) fn minus(c: u32) -> u32
    ensures { result ≡ minus c }
{
    if c == 0x2212 { 0xFF0D } else { c }
}

// The two bytes of a pointer that is found; or an error that names the code point.
pub(crate) fn at(encoding: u8, found: Option<usize>, c: u32) -> One
    ensures { Inside (layout_of encoding) found → told result ≡ pair_or_error_with (layout_of encoding) (pointer_of found) c }
{
    match found {
        Some(p) => {
            let pair = layouts::two_bytes(encoding, p);
            One::Two([pair.lead, pair.trail])
        }
        None => One::Unwritable(c),
    }
}

// The same of a code point's first pointer, with the pointers from low to high passed over.
pub(crate) fn pair(
    encoding: u8,
    table: &[u32],
    links: &[u32],
    slots: &[u16],
    low: u32,
    high: u32,
    c: u32,
) -> One
    ensures { InRows low high table.now (layout_of encoding) →
        Aids (pass_over low high) table.now slots.now → told result ≡ pair_or_error_with
        (layout_of encoding) (look_up table.now links.now first (pass_over low high) c) c }
{
    at(
        encoding,
        slots::pointer(table, links, slots, low, high, c),
        c,
    )
}
