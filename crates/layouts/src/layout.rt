// Where the pairs of each index lie, as the standard has it.

ghost use Rattle.std.specs.Prelude.{◌&&◌, IsTrue, leb};
ghost use Rattle.layouts.specs.Offsets.{offset, fits};

use crate::offset::Offset;

// A row for each lead, a column for each trail; the divisor is the cells of a row.
#[derive(Clone, Copy)]
pub(crate) struct Layout {
    pub(crate) rows: u8,
    pub(crate) divisor: u8,
    pub(crate) lead: Offset,
    pub(crate) trail: Offset,
    ghost bytes: { IsTrue (fits (offset lead) rows && fits (offset trail) divisor && leb divisor 190) },
}

pub(crate) const GB18030: Layout = Layout {
    rows: 126,
    divisor: 190,
    lead: Offset::One(0x81),
    trail: Offset::Two {
        gap: 0x3F,
        low: 0x40,
        high: 0x41,
    },
};

pub(crate) const BIG5: Layout = Layout {
    rows: 126,
    divisor: 157,
    lead: Offset::One(0x81),
    trail: Offset::Two {
        gap: 0x3F,
        low: 0x40,
        high: 0x62,
    },
};

pub(crate) const EUC_JP: Layout = Layout {
    rows: 94,
    divisor: 94,
    lead: Offset::One(0xA1),
    trail: Offset::One(0xA1),
};

pub(crate) const ISO_2022_JP: Layout = Layout {
    rows: 94,
    divisor: 94,
    lead: Offset::One(0x21),
    trail: Offset::One(0x21),
};

pub(crate) const SHIFT_JIS: Layout = Layout {
    rows: 60,
    divisor: 188,
    lead: Offset::Two {
        gap: 0x1F,
        low: 0x81,
        high: 0xC1,
    },
    trail: Offset::Two {
        gap: 0x3F,
        low: 0x40,
        high: 0x41,
    },
};

pub(crate) const EUC_KR: Layout = Layout {
    rows: 126,
    divisor: 190,
    lead: Offset::One(0x81),
    trail: Offset::One(0x41),
};
