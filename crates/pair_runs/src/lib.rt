// Runs of the encodings of one and two bytes, and of four in gb18030.
// A slice that is passed on is lent anew (`&*`): docs/DECISIONS.md, 45.
#![tactic(auto)]

mod gb18030;
mod layout;
pub mod pairs;
