// The lines of a text, one after another, by the record of cursor.rt.

ghost use Rattle.std.specs.Prelude.{◌≡◌, ◌+◌, ◌-◌, ◌<◌, ◌≤◌, length, take, MatchOption};
ghost use Rattle.std.specs.Iterator.{at_most};
ghost use Rattle.list_spec.specs.Lines.{before};
ghost use Rattle.list.specs.Walking.{LineAt};

use crate::cursor::{Cursor, line, moved, start};
use crate::search::{TAB, find};

// A line: its number, counted from 1, the place of its first character, and its characters.
#[derive(Clone, Copy)]
pub(crate) struct Line<'a> {
    pub number: usize,
    pub start: usize,
    pub chars: &'a [u32],
}

impl<'a> Line<'a> {
    // Its characters in front of the first tab.
    pub(crate) fn name(self) -> &'a [u32]
        ensures { result.now ≡ take (before TAB self.entry.chars.now) self.entry.chars.now }
    {
        match find(self.chars, TAB) {
            Some(tab) => &self.chars[..tab],
            None => self.chars,
        }
    }
}

// The record, and the number of the line at its place.
#[derive(Drop)]
pub(crate) struct Lines<'a> {
    pub cursor: Cursor<'a>,
    pub number: usize,
    ghost counted: { number ≤ cursor.at + 1 },
}

impl<'a> Lines<'a> {
    pub(crate) fn new(text: &'a [u32]) -> Self
        ensures { (result.cursor.text ≡ text.entry) × (result.cursor.at ≡ 0) × (result.number ≡ 1) }
    {
        Lines {
            cursor: start(text),
            number: 1,
        }
    }
}

impl<'a> Iterator for Lines<'a> {
    type Item = Line<'a>;

    ghost next_gives = { λ s r t. (t.cursor.text ≡ s.cursor.text) × MatchOption
        r
        (length s.cursor.text.now ≤ s.cursor.at)
        (λ l. LineAt s.cursor.text.now s.number s.cursor.at l.number l.start l.chars.now t.number t.cursor.at) };

    ghost remaining = { λ s. at_most (length s.cursor.text.now - s.cursor.at) };

    fn next(&mut self) -> Option<Line<'a>> {
        let Cursor { text, at } = self.cursor;
        if at >= text.len() {
            return None;
        }
        let span = line(self.cursor);
        let found = Line {
            number: self.number,
            start: at,
            chars: &text[at..span.stop],
        };
        self.cursor = moved(self.cursor, span.next);
        self.number += 1;
        Some(found)
    }
}
