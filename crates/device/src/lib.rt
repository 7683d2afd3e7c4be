// Byte search, the model of a unit, and the sends that belong to no sequence. The sequences use these by their contracts alone.
#![tactic(auto)]

pub mod model;
pub mod search;
pub mod sends;
