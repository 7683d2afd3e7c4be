// The words of a line, read one by one: names, numbers, bools, floats, models, sources and bytes, as docs/REPLAY.md says. What they make together is read in
// the crates `messages` and `reading`.
#![tactic(auto)]

mod bytes;
mod reader;
mod reason;
mod value;

pub use reader::{LINE, Reader};
pub use reason::{Bad, Reason};
pub use value::{Value, named};
