#![tactic(auto)]

// What the reverse index calls mean. No code: crate reverse_index has it.
