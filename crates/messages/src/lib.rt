// Reads the message of an envelope, its kind and its fields, as docs/REPLAY.md says. Their words are read in the crate `words`.
#![tactic(auto)]

mod kinds;

pub use kinds::{message, names_another, param_value, params, radar_cal};
