#![tactic(auto)]

// What a writer writes by a reverse index. No code: crate pair_writers has it.
