#![tactic(auto)]

// Lists of calls on a decoder, the demands on them, and their proofs: specs/ and proofs/. No code.
