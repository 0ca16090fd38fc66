#![tactic(auto)]

// What the program `mend` writes: definitions and theorems. No code: crate mend has it.
