// The known names and the used ones, searched for plainly.

ghost use Rattle.std.specs.Prelude.{◌≡◌};
ghost use Rattle.std.specs.Iterator.{YieldsFirstRef, item_count};
ghost use Rattle.list_spec.specs.Lines.{lines_of, names_of, among};
ghost use Rattle.list_spec.specs.ListCall.{used_before};
ghost use Rattle.list.specs.Walking.{name_fault};
ghost use Rattle.list.specs.Faults.{refusal_of};

use crate::fault::Fault;
use crate::lines::Lines;
use crate::search::{LINE_FEED, find};

// Walks known names: each is closed by a line feed, and characters after the last line feed name nothing.
#[derive(Drop)]
pub(crate) struct Names<'a>(pub &'a [u32]);

impl<'a> Iterator for Names<'a> {
    type Item = &'a [u32];

    ghost next_gives = { YieldsFirstRef (λ s. names_of s.0.now) };

    ghost remaining = { item_count (λ s. names_of s.0.now) };

    fn next(&mut self) -> Option<&'a [u32]> {
        let end = find(self.0, LINE_FEED)?;
        let (name, rest) = self.0.split_at(end);
        self.0 = &rest[1..];
        Some(name)
    }
}

// Is this a known name?
fn is_known(names: &[u32], name: &[u32]) -> bool
    ensures { result ≡ among name.now (names_of names.now) }
{
    Names(names).any(|known| known == name)
}

// Has a line that begins before a place this name?
fn is_used(text: &[u32], place: usize, name: &[u32]) -> bool
    ensures { result ≡ used_before text.now place name.now (lines_of text.now) }
{
    for line in Lines::new(text) {
        if line.start >= place {
            return false;
        }
        if line.name() == name {
            return true;
        }
    }
    false
}

// Judges the name of a line that begins at a place. It is not empty.
#[tactic(auto, unfolding(crate::specs::Walking::name_fault))]
pub(crate) fn judge_name(
    text: &[u32],
    names: &[u32],
    place: usize,
    name: &[u32],
) -> Result<(), Fault>
    ensures { refusal_of result ≡ name_fault text.now names.now place name.now }
{
    if !is_known(names, name) {
        return Err(Fault::UnknownName);
    }
    if is_used(text, place, name) {
        return Err(Fault::UsedName);
    }
    Ok(())
}
