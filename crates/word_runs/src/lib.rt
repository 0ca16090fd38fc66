// Runs of single-byte text and of UTF-16: both read the chunk in 16-bit words.
#![tactic(auto)]

pub mod single_byte;
pub mod utf_16;
mod words;

ghost use Rattle.std.specs.Prelude.{◌≡◌};
ghost use Rattle.runs.specs.Counts.{counted};

use runs::{Counted, Place};

// A place where nothing is read.
pub(crate) fn unread(p: Place) -> Counted
    ensures { result ≡ counted p 0 }
{
    Counted {
        at: p.at,
        written: p.written,
        lines: 0,
        state: p.state,
        flag: p.flag,
    }
}
