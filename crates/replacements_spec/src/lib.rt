// What a feed and a finish answer that also tell what was replaced. No code: crate replacements has it.
#![tactic(auto)]

use decoder::Answer;

// The answer of the feed or the finish, and how many sequences were replaced: the lent spans have a place and a width for each.
#[repr(C)]
#[derive(Clone, Copy)]
pub struct Replacing {
    pub answer: Answer,
    pub count: usize,
}
