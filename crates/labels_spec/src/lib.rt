// What the label call and the name call answer. No code: crate labels has it.
#![tactic(auto)]

// The label call: where the trimmed label lies in the caller's bytes, the refusal number or 0, and the encoding number.
#[repr(C)]
#[derive(Clone, Copy)]
pub struct Found {
    pub start: usize,
    pub length: usize,
    pub refusal: u8,
    pub encoding: u8,
}

// The name call: how many bytes the name has, 0 where it is refused, and the refusal number or 0.
#[repr(C)]
#[derive(Clone, Copy)]
pub struct Named {
    pub length: usize,
    pub refusal: u8,
}
