// The options of a list, written.

ghost use Rattle.std.specs.Prelude.{◌≡◌, ◌+◌, ◌^◌, ◌<◌, ◌≤◌, length};
ghost use Rattle.list_spec.specs.ListCall.{options_of, cells};
ghost use Rattle.list.specs.Walking.{put, line_cells};

use crate::lines::{Line, Lines};

// The five cells of an option: its line number, and where its name and its value start and end.
fn cells_of<'a>(line: Line<'a>) -> [u64; 5]
    requires { line.start + length line.chars.now < 2 ^ 63 }
    ensures { result ≡ line_cells line.entry.number line.entry.start line.entry.chars.now }
{
    let tab = line.start + line.name().len();
    [
        line.number as u64,
        line.start as u64,
        tab as u64,
        tab as u64 + 1,
        (line.start + line.chars.len()) as u64,
    ]
}

// Writes the options of a list from the front of the room on.
pub(crate) fn write(text: &[u32], room: &mut [u64])
    requires { length (cells text.now (options_of text.now)) ≤ length room.old }
    ensures { room.new ≡ put room.old 0 (cells text.now (options_of text.now)) }
{
    let mut at = 0;
    for line in Lines::new(text) {
        if line.chars.is_empty() {
            continue;
        }
        room[at..at + 5].copy_from_slice(&cells_of(line));
        at += 5;
    }
}
