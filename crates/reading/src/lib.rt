// Reads the lines of a list of calls, as docs/REPLAY.md says. Their words are read in the crate `words`, the message of a feed in the crate `messages`.
#![tactic(auto)]

mod call;
mod run_settings;

pub use call::{
    Call, Calls, DeviceCall, Feed, Lent, SHEET_BUFFER, Sequence, SheetBuffer, names_another,
    read_line,
};
