// What the writer's calls answer. No code: crate encoder has it.
#![tactic(auto)]

// The bytes written, with report 11 the index of the unwritable scalar (else 0), the refusal number of document 01 or 0, and the state
// for the next call.
#[repr(C)]
#[derive(Clone, Copy)]
pub struct Written {
    pub written: usize,
    pub index: usize,
    pub refusal: u8,
    pub state: u8,
}
