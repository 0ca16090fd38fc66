// Searching characters.

ghost use Rattle.std.specs.Prelude.{◌≡◌, ◌<◌, length, MatchOption};
ghost use Rattle.list_spec.specs.Lines.{before};

pub(crate) const TAB: u32 = 0x09;

pub(crate) const LINE_FEED: u32 = 0x0A;

pub(crate) const CARRIAGE_RETURN: u32 = 0x0D;

// The place of the first x.
pub(crate) fn find(s: &[u32], x: u32) -> Option<usize>
    ensures { MatchOption
        result
        (before x s.now ≡ length s.now)
        (λ i. (i ≡ before x s.now) × (i < length s.now)) }
{
    s.iter().position(|c| *c == x)
}
