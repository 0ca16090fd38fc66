#![tactic(auto)]

// What the list call reads from what a decoder hands out: specs/ and proofs/. No code.
