// What the index line call answers. No code: crate index has it.
#![tactic(auto)]

// The entry's pointer or 0, the refusal number of document 01 or 0, and 1 where the line is an entry, else 0.
#[repr(C)]
#[derive(Clone, Copy)]
pub struct Line {
    pub pointer: u32,
    pub refusal: u8,
    pub entry: u8,
}
