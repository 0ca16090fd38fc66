#![tactic(auto)]

// What is written reads back: specs/ and proofs/. No code.
