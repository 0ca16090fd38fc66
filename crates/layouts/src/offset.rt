// From a number to its byte and back.

ghost use Rattle.std.specs.Prelude.{◌≡◌, ◌&&◌, ◌<◌, IsTrue, leb};
ghost use Rattle.standard.specs.Layouts.{placed};
ghost use Rattle.layouts.specs.Rows.{place};
ghost use Rattle.layouts.specs.Offsets.{offset, fits};

use crate::within;

// What is added to a number for its byte: one offset, or the lower for numbers below `gap` and otherwise the higher.
#[derive(Clone, Copy)]
pub(crate) enum Offset {
    One(u8),
    Two { gap: u8, low: u8, high: u8 },
}

impl Offset {
    // Where a byte of n numbers stands, `step` cells for each number. With two offsets no branch tells which one a byte has.
    // 32768 and not an Option: a row and a column are added before the one test, and tables of numbers hold them.
    #[inline(always)]
    #[tactic(auto, unfolding(crate::specs::Rows::place))]
    pub(crate) fn place(self, n: u8, step: u16, b: u8) -> u16
        requires { IsTrue (fits (offset self) n && leb step 190) }
        ensures { result ≡ place (offset self) n step b }
    {
        match self {
            Offset::One(low) => {
                if within(low, b, low + n - 1) {
                    u16::from(b - low) * step
                } else {
                    32768
                }
            }
            Offset::Two { gap, low, high } => {
                if within(gap + low, b, gap + high - 1) || !within(low, b, high + n - 1) {
                    32768
                } else {
                    u16::from(b - low - u8::from(gap + low <= b) * (high - low)) * step
                }
            }
        }
    }

    // The byte of one of n numbers.
    pub(crate) fn byte(self, n: u8, number: usize) -> u8
        requires { IsTrue (fits (offset self) n) × (number < n) }
        ensures { result ≡ placed (offset self) number }
    {
        match self {
            Offset::One(low) => number as u8 + low,
            Offset::Two { gap, low, high } => {
                if number < usize::from(gap) {
                    number as u8 + low
                } else {
                    number as u8 + high
                }
            }
        }
    }
}
