// Known names found in little time, by slots on the stack. Nothing is promised of what slots hold: what a slot says is compared with the
// names, and a name that is in no slot is searched for plainly.

ghost use Rattle.std.specs.Prelude.{◌≡◌, ◌<◌, ◌≤◌, false, length, IfSome};
ghost use Rattle.list.specs.Slots.{slot_of, starts_at, name_at, look_of};

use crate::names::Names;
use crate::search::{LINE_FEED, find};

// Of the hash of a name.
const MULTIPLIER: u32 = 1327217885;

// The known names, and N slots: each is 0 or one plus the place where a known name begins, and has a mark, whether a line has had this name.
// A slot is a number and not an Option, which takes twice the room: the table lies on the stack.
#[derive(Drop)]
pub(crate) struct Table<'a, const N: usize> {
    pub names: &'a [u32],
    pub slots: [u32; N],
    pub marks: [bool; N],
    ghost sized: { (0 < N) × (N ≤ 65536) },
    ghost whole: { (length slots ≡ N) × (length marks ≡ N) },
}

// Does a known name begin at a place?
#[tactic(auto, unfolding(crate::specs::Slots::starts_at))]
fn starts_at(names: &[u32], at: usize) -> bool
    ensures { result ≡ starts_at names.now at }
{
    at < names.len() && (at == 0 || names[at - 1] == LINE_FEED)
}

// Is this the known name that begins at a place?
fn name_at(names: &[u32], at: usize, name: &[u32]) -> bool
    ensures { result ≡ name_at names.now at name.now }
{
    if !starts_at(names, at) {
        return false;
    }
    match Names(&names[at..]).next() {
        Some(known) => known == name,
        None => false,
    }
}

impl<'a, const N: usize> Table<'a, N> {
    // The slot at which the search for a name begins.
    fn slot_of(&self, name: &[u32]) -> usize
        ensures { (result ≡ slot_of N name.now) × (result < N) }
    {
        let hash = name.iter().fold(0u32, |hash, c| {
            hash.wrapping_add(*c).wrapping_mul(MULTIPLIER)
        });
        (hash as usize * N) >> 32
    }

    // Puts known names into the slots, from the first on: as many as leave a quarter of the slots empty, so that a search stays short.
    // It walks by itself and not by Names, which tells no places.
    pub(crate) fn fill(&mut self)
        ensures { (self.new.names ≡ self.old.names) × (self.new.marks ≡ self.old.marks) }
    {
        let names = self.names;
        let mut start = 0;
        'names: for _ in 0..N - N / 4 {
            let Some(length) = find(&names[start..], LINE_FEED) else {
                break;
            };
            let Ok(value) = u32::try_from(start + 1) else {
                break;
            };
            self.put(&names[start..start + length], value);
            start += length + 1;
        }
    }

    // Puts a value for a name into the first empty slot.
    fn put(&mut self, name: &[u32], value: u32)
        ensures { (self.new.names ≡ self.old.names) × (self.new.marks ≡ self.old.marks) }
    {
        let mut slot = self.slot_of(name);
        'slots: for _ in 0..N {
            if self.slots[slot] == 0 {
                self.slots[slot] = value;
                return;
            }
            slot = (slot + 1) % N;
        }
    }

    // The slot of the known name that this is.
    pub(crate) fn look(&self, name: &[u32]) -> Option<usize>
        ensures { (result ≡ look_of self.now.slots self.now.names.now name.now) × IfSome result (λ j. j < N) }
    {
        let mut slot = self.slot_of(name);
        'slots: for _ in 0..N {
            let value = self.slots[slot] as usize;
            if value == 0 {
                return None;
            }
            if name_at(self.names, value - 1, name) {
                return Some(slot);
            }
            slot = (slot + 1) % N;
        }
        None
    }
}
