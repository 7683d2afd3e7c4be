// A list for people: its lines, and the answers laid out below them, as docs/REPLAY.md says under "Shown to people". It goes by the text of the
// answers, and knows nothing of what the sequences store.
#![tactic(auto)]

ghost use Rattle.std.specs.Prelude.{◌≡◌};
ghost use Rattle.showing.specs.Shown.{first_shown, with_call, with_sequence, with_reading, with_bad_line};

mod answer;
mod fields;
mod session;
mod summary;
pub mod tables;

use folding::fold;
use std::io;
use std::io::Write;
use tables::{Sequence, Step};

// What the layout goes by, beside the answer.
#[derive(Clone, Copy)]
pub struct Shown {
    // how many there were
    calls: u64,
    refused: u64,
    bad_lines: u64,
    // the sequence that runs, and its step
    sequence: Option<Sequence>,
    step: Option<Step>,
    // whether the call begins it, and whether its answer has changed the step
    begins: bool,
    moved: bool,
    // the reading, if the call is a feed or check of it
    reading: Option<u64>,
    // the steps of a session's sequences: `None` of one that has not begun
    steps: [Option<Step>; 3],
}

impl Shown {
    // Before the first line.
    pub fn new() -> Shown
        ensures { result ≡ first_shown }
    {
        Shown {
            calls: 0,
            refused: 0,
            bad_lines: 0,
            sequence: None,
            step: None,
            begins: false,
            moved: false,
            reading: None,
            steps: [None, None, None],
        }
    }

    // Before one more call.
    pub fn called(&mut self)
        ensures { self.new ≡ with_call self.old }
    {
        self.calls = self.calls.saturating_add(1);
        self.begins = false;
        self.reading = None;
    }

    // The call begins a sequence.
    pub fn begun(&mut self, sequence: Sequence)
        ensures { self.new ≡ with_sequence sequence self.old }
    {
        self.begins = true;
        self.sequence = Some(sequence);
        self.steps = [None, None, None];
    }

    // The call is a feed or check with this reading.
    pub fn read(&mut self, now: u64)
        ensures { self.new ≡ with_reading now self.old }
    {
        self.reading = Some(now);
    }

    // After one more line that can't be read.
    pub fn unread(&mut self)
        ensures { self.new ≡ with_bad_line self.old }
    {
        self.bad_lines = self.bad_lines.saturating_add(1);
    }
}

// The columns before what is folded of a line.
const HANG: usize = 8;

// A line without the carriage return at its end, which the reader of lines leaves out as well, in a crate that this one does not use.
fn without_return(line: &[u8]) -> &[u8] {
    line.strip_suffix(b"\r").unwrap_or(line)
}

// Writes a line of the list.
pub fn line<W: Write>(out: &mut W, line: &[u8]) -> io::Result<()> {
    fold::rest(out, without_return(line), 0, HANG)
}

// Writes a mark below the place of a line at which reading stopped, if the line isn't folded.
pub fn mark<W: Write>(out: &mut W, line: &[u8], place: usize) -> io::Result<()> {
    let column = fold::columns(&line[..place.min(line.len())]);
    if fold::WIDTH < fold::columns(without_return(line)) || fold::WIDTH <= column {
        return Ok(());
    }
    writeln!(out, "{:column$}^", "")
}

// Writes, before the answer to a call, that it takes a Mevo since its line gives no model.
pub fn model_by_default<W: Write>(out: &mut W) -> io::Result<()> {
    answer::line(out, b"model Mevo by default")
}
