// Rows, columns and pointers of an index by the bytes of a pair. 32768 is none: it is past the end of every table.
#![tactic(auto)]

pub mod gb18030;
mod layout;
mod offset;
pub mod ranges;

ghost use Rattle.std.specs.Prelude.{◌≡◌, ◌+◌, ◌<◌};
ghost use Rattle.standard.specs.Base.{within};
ghost use Rattle.standard.specs.Layouts.{leads};
ghost use Rattle.layouts.specs.Rows.{row, column, layout_of, cells, TheBytes};
ghost use Rattle.layouts.specs.Views.{layout};

use crate::layout::{BIG5, EUC_JP, EUC_KR, GB18030, ISO_2022_JP, Layout, SHIFT_JIS};

// A lead and a trail.
#[derive(Clone, Copy)]
pub struct Pair {
    pub lead: u8,
    pub trail: u8,
}

// low to high, inclusive
pub fn within(low: u8, b: u8, high: u8) -> bool
    ensures { result ≡ within low b high }
{
    low <= b && b <= high
}

impl Layout {
    // The layout of an encoding number, of those that have pairs.
    #[tactic(auto, unfolding(crate::specs::Rows::layout_of))]
    fn of(encoding: u8) -> Layout
        ensures { layout result ≡ layout_of encoding }
    {
        match encoding {
            0..=30 => GB18030,
            31 => BIG5,
            32 => EUC_JP,
            33 => ISO_2022_JP,
            34 => SHIFT_JIS,
            _ => EUC_KR,
        }
    }

    // The row of a lead. This and the next are part of their callers, where the layout is constant.
    #[inline(always)]
    fn row(self, lead: u8) -> u16
        ensures { result ≡ row (layout self) lead }
    {
        self.lead.place(self.rows, u16::from(self.divisor), lead)
    }

    // The column of a trail.
    #[inline(always)]
    fn column(self, trail: u8) -> u16
        ensures { result ≡ column (layout self) trail }
    {
        self.trail.place(self.divisor, 1, trail)
    }

    // The pointer of a pair.
    #[inline(always)]
    fn pointer(self, lead: u8, trail: u8) -> usize
        ensures { result ≡ row (layout self) lead + column (layout self) trail }
    {
        sum(self.row(lead), self.column(trail))
    }

    // The cells of all rows.
    fn cells(self) -> usize
        ensures { result ≡ cells (layout self) }
    {
        usize::from(self.rows) * usize::from(self.divisor)
    }
}

// The row of a lead.
pub fn row(encoding: u8, lead: u8) -> u16
    ensures { result ≡ row (layout_of encoding) lead }
{
    Layout::of(encoding).row(lead)
}

// Is it a lead?
pub fn leads(encoding: u8, lead: u8) -> bool
    ensures { result ≡ leads (layout_of encoding) lead }
{
    row(encoding, lead) < 32768
}

// The column of a trail.
pub fn column(encoding: u8, trail: u8) -> u16
    ensures { result ≡ column (layout_of encoding) trail }
{
    Layout::of(encoding).column(trail)
}

// The pointer of a row and a column.
pub fn sum(row: u16, column: u16) -> usize
    ensures { result ≡ row + column }
{
    usize::from(row) + usize::from(column)
}

// The pointer of a pair of ISO-2022-JP, whose run asks for no other.
pub fn iso_2022_jp_pointer(lead: u8, trail: u8) -> usize
    ensures { result ≡ row (layout_of 33) lead + column (layout_of 33) trail }
{
    pointer(33, lead, trail)
}

// The pointer of a pair. The encoding is told once for row and column, and each layout by itself and not by `of`: so its numbers are
// constants where the pairs are read.
#[tactic(auto, unfolding(crate::specs::Rows::layout_of))]
pub fn pointer(encoding: u8, lead: u8, trail: u8) -> usize
    ensures { result ≡ row (layout_of encoding) lead + column (layout_of encoding) trail }
{
    match encoding {
        0..=30 => GB18030.pointer(lead, trail),
        31 => BIG5.pointer(lead, trail),
        32 => EUC_JP.pointer(lead, trail),
        33 => ISO_2022_JP.pointer(lead, trail),
        34 => SHIFT_JIS.pointer(lead, trail),
        _ => EUC_KR.pointer(lead, trail),
    }
}

// The cells of a row.
pub fn divisor(encoding: u8) -> usize
    ensures { result ≡ (layout_of encoding).divisor }
{
    usize::from(Layout::of(encoding).divisor)
}

// The two bytes of a pointer into the rows, and 0 for both behind them. No Option: callers have pointers into the rows, and only these have a promise.
pub fn two_bytes(encoding: u8, p: usize) -> Pair
    ensures { p < cells (layout_of encoding) → TheBytes (layout_of encoding) p result }
{
    let y = Layout::of(encoding);
    if y.cells() <= p {
        return Pair { lead: 0, trail: 0 };
    }
    let d = usize::from(y.divisor);
    Pair {
        lead: y.lead.byte(y.rows, p / d),
        trail: y.trail.byte(y.divisor, p % d),
    }
}
