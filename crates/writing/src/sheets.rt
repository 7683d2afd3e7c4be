// Writes the ticks that a start-up keeps, and what a call for its sheet answers.
use crate::write;
use sheet::{SheetRefusal, Ticks};
use std::io;
use std::io::Write;

// The reading and the letter of each tick.
pub fn ticks<W: Write>(out: &mut W, ticks: &Ticks) -> io::Result<()> {
    let kept = ticks.as_slice();
    if kept.is_empty() {
        return out.write_all(b" ticks=none");
    }
    let mut before: &[u8] = b" ticks=";
    for tick in kept {
        out.write_all(before)?;
        write::number(out, tick.reading)?;
        out.write_all(&[tick.how.letter()])?;
        before = b",";
    }
    Ok(())
}

// How many bytes a sheet has taken, or that it was refused.
pub fn outcome<W: Write>(out: &mut W, written: &Result<usize, SheetRefusal>) -> io::Result<()> {
    match written {
        Ok(n) => write!(out, "accepted; wrote {n}"),
        Err(refusal) => write!(out, "refused {}", refusal.number()),
    }
}

// Bytes that a sheet was written into.
pub fn text<W: Write>(out: &mut W, name: &str, s: &[u8]) -> io::Result<()> {
    write!(out, "; {name}=")?;
    write::text(out, s)
}
