// Document 02, Ask 11: the list reader. A text is walked line by line by the record of cursor.rt; a list is judged whole before anything
// is written.
#![tactic(auto)]

pub mod cursor;
mod fault;
mod judge;
mod lines;
mod names;
mod search;
mod slots;
mod write;

ghost use Rattle.std.specs.Prelude.{◌≡◌};
ghost use Rattle.list_spec.specs.ListCall.{list_call};

use judge::judge;
use list_spec::Listed;
use write::write;

// The list call. Its answer has numbers and no enum: the C record has them. Lent are the characters of a list, the known names, each closed by a line feed, and a room of five cells for each option.
pub fn read_list(text: &[u32], names: &[u32], room: &mut [u64]) -> Listed
    ensures { (result ≡ (list_call text.now names.now room.old).answer) ×
        (room.new ≡ (list_call text.now names.now room.old).room) }
{
    match judge(text, names) {
        Ok(options) if options <= room.len() / 5 => {
            write(text, room);
            Listed {
                options,
                line: 0,
                refusal: 0,
            }
        }
        Ok(_) => Listed {
            options: 0,
            line: 0,
            refusal: 7,
        },
        Err(at) => Listed {
            options: 0,
            line: at.line,
            refusal: u8::from(at.fault),
        },
    }
}
