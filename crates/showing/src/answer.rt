// An answer, laid out below its line.
use crate::tables::{Reason, Sequence, Step};
use crate::{Shown, fields};
use folding::split::Texts;
use folding::{fold, split};
use std::io;
use std::io::Write;

// The columns before an answer, and before what is folded of it.
pub const INDENT: usize = 4;

const HANG: usize = 8;

pub fn line<W: Write>(out: &mut W, s: &[u8]) -> io::Result<()> {
    fold::blanks(out, INDENT)?;
    fold::rest(out, s, INDENT, HANG)
}

// The lines of a sheet, which stand between quotes with the full stops of the buffer around them. No line has a full stop; behind each
// stands its line feed, `\x0A`.
fn sheet<W: Write>(out: &mut W, text: &[u8]) -> io::Result<()> {
    for piece in text.split(|b| matches!(*b, b'"' | b'.' | b'\\')) {
        let s = piece.strip_prefix(b"x0A").unwrap_or(piece);
        if !s.is_empty() {
            fold::blanks(out, fields::FIELD)?;
            out.write_all(s)?;
            writeln!(out)?;
        }
    }
    Ok(())
}

// ---- whether it was accepted

// `refused N`, and why.
fn refused<W: Write>(out: &mut W, s: &[u8], number: &[u8]) -> io::Result<()> {
    fold::blanks(out, INDENT)?;
    out.write_all(s)?;
    if let Some(reason) = Reason::of(number) {
        write!(out, ": {reason}")?;
    }
    writeln!(out)
}

impl Shown {
    // What an accepted feed or check has come to: the entry that it has ticked. An arm has none: its step changes, or what came was
    // not awaited.
    fn ticked<'a>(&self, plain: &'a [u8]) -> &'a [u8] {
        if self.sequence == Some(Sequence::Arm) {
            return if self.moved {
                b"awaited"
            } else {
                b"not awaited"
            };
        }
        match plain.split(|b| *b == b';').nth(1) {
            Some(part) if part.starts_with(b" ticked ") => part.trim_ascii_start(),
            _ => b"ticked nothing",
        }
    }

    fn accepted<W: Write>(&self, out: &mut W, plain: &[u8]) -> io::Result<()> {
        fold::blanks(out, INDENT)?;
        write!(out, "accepted")?;
        if self.reading.is_some() {
            write!(out, ", ")?;
            out.write_all(self.ticked(plain))?;
        }
        writeln!(out)
    }

    // ---- the other parts

    // The step that is awaited.
    fn awaited<W: Write>(&self, out: &mut W, s: &[u8]) -> io::Result<()> {
        fold::blanks(out, INDENT)?;
        write!(out, "{} ", if self.moved { "now" } else { "still" })?;
        out.write_all(s)?;
        writeln!(out)
    }

    // A part that says nothing of whether the call was accepted. A disarm's state has no fields, and isn't shown.
    pub fn other<W: Write>(&self, out: &mut W, s: &[u8]) -> io::Result<()> {
        if split::is_step(s) {
            return self.awaited(out, s);
        }
        if let Some(state) = s.strip_prefix(b"state ") {
            line(out, b"state")?;
            return fields::words(out, state);
        }
        if s.starts_with(b"ticked ") || s == b"state".as_slice() {
            return Ok(());
        }
        if let Some(text) = s
            .strip_prefix(b"sheet=")
            .or_else(|| s.strip_prefix(b"buffer="))
        {
            return sheet(out, text);
        }
        let is_field = s.iter().find(|b| matches!(**b, b'=' | b' ')) == Some(&b'=');
        if is_field {
            return fields::words(out, s);
        }
        line(out, s)
    }

    // ---- an answer

    // The reading of a feed or check where it is looked at.
    fn clock<W: Write>(&self, out: &mut W) -> io::Result<()> {
        match (self.sequence, self.reading) {
            (Some(Sequence::Dsp | Sequence::Avr | Sequence::Session), Some(now)) => {
                fold::blanks(out, INDENT)?;
                write!(out, "reading ")?;
                fields::reading(out, now)
            }
            _ => Ok(()),
        }
    }

    // The parts of an answer.
    fn parts<W: Write>(&self, out: &mut W, plain: &[u8]) -> io::Result<()> {
        let mut texts = Texts::new();
        for part in plain.split(|b| texts.outside(*b) && *b == b';') {
            let s = part.trim_ascii_start();
            if s.starts_with(b"accepted") {
                self.accepted(out, plain)?;
            } else if let Some(number) = s.strip_prefix(b"refused ") {
                refused(out, s, number)?;
            } else if self.sequence == Some(Sequence::Session) {
                self.of_session(out, plain, s)?;
            } else {
                self.other(out, s)?;
            }
        }
        Ok(())
    }

    // The step in an answer, or the last one.
    fn step_of(&self, plain: &[u8]) -> Option<Step> {
        match (self.sequence, split::step(plain)) {
            (Some(sequence), Some(answered)) => sequence.step(answered),
            _ => self.step,
        }
    }

    // Lays an answer out.
    pub fn lay<W: Write>(&mut self, out: &mut W, plain: &[u8]) -> io::Result<()> {
        if plain.starts_with(b"bad line") {
            return line(out, plain);
        }
        let step = self.step_of(plain);
        self.moved = self.begins || plain.starts_with(b"accepted; ticked ") || step != self.step;
        self.step = step;
        if plain.starts_with(b"refused ") {
            self.refused = self.refused.saturating_add(1);
        }
        self.clock(out)?;
        self.parts(out, plain)?;
        if self.sequence == Some(Sequence::Session) {
            self.follow(plain);
        }
        Ok(())
    }
}
