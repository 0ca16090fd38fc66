// The record that walks a list: a text, and a place in it. Its functions are thin: `line` takes the record apart, and `line_at` does the
// work. `next_line` serves all that have a slice and a number; the list call walks by `Lines` of lines.rt, which holds the record.

ghost use Rattle.std.specs.Prelude.{◌≡◌, length};
ghost use Rattle.list_spec.specs.Spans.{span_at};

use crate::search::{CARRIAGE_RETURN, LINE_FEED, find};
use list_spec::Span;

#[derive(Clone, Copy)]
pub struct Cursor<'a> {
    pub text: &'a [u32],
    pub at: usize,
}

// The line at a place of a text. No Option at the end: `line` and `next_line` promise both places there.
fn line_at(text: &[u32], at: usize) -> Span
    ensures { result ≡ span_at text.now at }
{
    if at >= text.len() {
        return Span { stop: at, next: at };
    }
    match find(&text[at..], LINE_FEED) {
        Some(length) => {
            let end = at + length;
            let stop = if length > 0 && text[end - 1] == CARRIAGE_RETURN {
                end - 1
            } else {
                end
            };
            Span {
                stop,
                next: end + 1,
            }
        }
        None => Span {
            stop: text.len(),
            next: text.len() + 1,
        },
    }
}

// The record at the start of a text.
pub fn start<'a>(text: &'a [u32]) -> Cursor<'a>
    ensures { (result.text ≡ text.entry) × (result.at ≡ 0) }
{
    Cursor { text, at: 0 }
}

// The line at the record's place: where it stops, and where the next one begins; both are the place itself where there is no more.
pub fn line<'a>(r: Cursor<'a>) -> Span
    ensures { result ≡ span_at r.entry.text.now r.entry.at }
{
    line_at(r.text, r.at)
}

// The record at another place of its text.
pub fn moved<'a>(r: Cursor<'a>, at: usize) -> Cursor<'a>
    ensures { (result.text ≡ r.entry.text) × (result.at ≡ at) }
{
    Cursor { text: r.text, at }
}

// The line at a place of a text, through the record.
pub fn next_line(text: &[u32], at: usize) -> Span
    ensures { result ≡ span_at text.now at }
{
    line(moved(start(text), at))
}
