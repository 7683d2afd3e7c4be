// What a list comes to.
use crate::Shown;
use crate::tables::{Sequence, Step};
use folding::fold;
use std::io;
use std::io::Write;

// The columns before what is folded.
const HANG: usize = 4;

// The end of a word for so many.
fn plural(n: u64) -> &'static str {
    if n == 1 {
        return "";
    }
    "s"
}

// What a sequence waits for.
fn not_done<W: Write>(out: &mut W, name: &str, step: &str, awaited: &str) -> io::Result<()> {
    let mut column = 0usize;
    for text in [name, " is not done: ", step, " waits for "] {
        out.write_all(text.as_bytes())?;
        column = column.saturating_add(text.len());
    }
    fold::rest(out, awaited.as_bytes(), column, HANG)
}

// Whether a sequence is done, or what it waits for.
pub fn ended<W: Write>(out: &mut W, sequence: Sequence, at: Step) -> io::Result<()> {
    if at.is_last() {
        return writeln!(out, "{} is done", sequence.name());
    }
    let Step(step, awaited) = at;
    not_done(out, sequence.name(), step, awaited)
}

impl Shown {
    fn counts<W: Write>(&self, out: &mut W) -> io::Result<()> {
        let calls = self.calls;
        let bad_lines = self.bad_lines;
        write!(
            out,
            "\n{calls} call{}, {} refused, ",
            plural(calls),
            self.refused
        )?;
        writeln!(out, "{bad_lines} bad line{}", plural(bad_lines))
    }

    // Sums a list up: the counts, and whether the last sequence is done.
    pub fn sum_up<W: Write>(&self, out: &mut W) -> io::Result<()> {
        self.counts(out)?;
        match (self.sequence, self.step) {
            (Some(Sequence::Session), _) => self.session_ended(out),
            (Some(sequence), Some(step)) => ended(out, sequence, step),
            _ => Ok(()),
        }
    }
}
