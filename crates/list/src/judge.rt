// The faults of a list: the first line at fault, or the number of options.

ghost use Rattle.std.specs.Prelude.{◌≡◌, ◌<◌, ◌≤◌, length, OnOk};
ghost use Rattle.list_spec.specs.ListCall.{fault_of};
ghost use Rattle.list.specs.Faults.{refusal_of};
ghost use Rattle.list.specs.Walking.{line_with, InText, Judged};
ghost use Rattle.list.specs.Slots.{Marked, mark_of};

use crate::fault::{Fault, FaultyLine};
use crate::lines::{Line, Lines};
use crate::names::judge_name;
use crate::search::{TAB, find};
use crate::slots::Table;

// Judges a line that is not empty. A name without fault that has a slot is marked.
fn judge_line<'a, 'b, const N: usize>(
    text: &[u32],
    line: Line<'a>,
    table: &mut Table<'b, N>,
) -> Result<(), Fault>
    requires long { 0 < length line.chars.now }
    requires lies { InText text.now (line_with line.number line.start line.chars.now) line.chars.now }
    requires marked { Marked text.now table.old.names.now table.old.slots table.old.marks line.start }
    ensures judges { refusal_of result ≡
        fault_of text.now table.old.names.now
        (line_with line.entry.number line.entry.start line.entry.chars.now) }
    ensures kept { (table.new.names ≡ table.old.names) × (table.new.slots ≡ table.old.slots) }
    ensures marks { OnOk result (table.new.marks ≡
        mark_of text.now table.old.names.now table.old.slots table.old.marks
        (line_with line.entry.number line.entry.start line.entry.chars.now)) }
{
    let Some(tab) = find(line.chars, TAB) else {
        return Err(Fault::NotOneTab);
    };
    if find(&line.chars[tab + 1..], TAB).is_some() {
        return Err(Fault::NotOneTab);
    }
    if tab == 0 {
        return Err(Fault::UnknownName);
    }
    let name = &line.chars[..tab];
    let Some(slot) = table.look(name) else {
        return judge_name(text, table.names, line.start, name);
    };
    if table.marks[slot] {
        return Err(Fault::UsedName);
    }
    table.marks[slot] = true;
    Ok(())
}

// Judges the lines, with N slots.
fn judge_by<const N: usize>(text: &[u32], names: &[u32]) -> Result<usize, FaultyLine>
    requires { (0 < N) × (N ≤ 65536) }
    ensures { Judged text.now names.now result }
{
    // Made in place and then filled: a table that a function returns stands on the stack twice.
    let mut table = Table {
        names,
        slots: [0; N],
        marks: [false; N],
    };
    table.fill();
    let mut options = 0;
    for line in Lines::new(text) {
        if line.chars.is_empty() {
            continue;
        }
        judge_line(text, line, &mut table).map_err(|fault| FaultyLine {
            line: line.number,
            fault,
        })?;
        options += 1;
    }
    Ok(options)
}

// Judges a list. Few names have slots that are soon cleared.
pub(crate) fn judge(text: &[u32], names: &[u32]) -> Result<usize, FaultyLine>
    ensures { Judged text.now names.now result }
{
    if names.len() <= 8192 {
        judge_by::<8192>(text, names)
    } else {
        judge_by::<65536>(text, names)
    }
}
