// What the list call answers, and what the list's record answers at a place. No code: crate list has it.
#![tactic(auto)]

// The list call: the options handed out, 0 where it is refused; the line at fault, counted from 1, or 0; the refusal number or 0.
#[repr(C)]
#[derive(Clone, Copy)]
pub struct Listed {
    pub options: usize,
    pub line: usize,
    pub refusal: u8,
}

// A line from a place of a text on: the place just after its last character, and the place where the next line begins.
// At the end of the text, and behind it, both are the place itself.
#[derive(Clone, Copy)]
pub struct Span {
    pub stop: usize,
    pub next: usize,
}
