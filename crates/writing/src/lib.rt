// Writes answers, as docs/REPLAY.md says. Each function writes to any writer, and fails where that does.
#![tactic(auto)]

pub mod fields;
pub mod records;
pub mod send;
pub mod sheets;
pub mod write;
