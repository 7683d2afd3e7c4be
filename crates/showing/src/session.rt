// A session, whose sequences are laid out side by side.
use crate::answer::{INDENT, line};
use crate::summary::ended;
use crate::tables::Sequence;
use crate::{Shown, fields};
use folding::{fold, split};
use std::io;
use std::io::Write;

// Its sequences by their letters, in the order in which they begin.
const START_UPS: [(u8, Sequence); 3] = [
    (b'D', Sequence::Dsp),
    (b'A', Sequence::Avr),
    (b'P', Sequence::Pi),
];

// The columns of each.
const WIDTH: usize = 32;

// Whether an answer ticks an entry of the sequence with this letter.
fn ticks(plain: &[u8], letter: u8) -> bool {
    match plain.strip_prefix(b"accepted; ticked ") {
        Some([own, ..]) => *own == letter,
        _ => false,
    }
}

// Writes how a sequence stands, and then its step. Gives the columns that this takes.
fn stands<W: Write>(out: &mut W, letter: u8, how: &str, step: &[u8]) -> io::Result<usize> {
    out.write_all(&[letter])?;
    out.write_all(how.as_bytes())?;
    out.write_all(step)?;
    Ok(how.len().saturating_add(step.len()).saturating_add(1))
}

// What a sequence stores or has come to; `none` where there is none.
fn words<W: Write>(out: &mut W, letter: u8, sequence: Sequence, s: &[u8]) -> io::Result<()> {
    fold::blanks(out, fields::FIELD)?;
    out.write_all(&[letter])?;
    if s == b"none".as_slice() {
        return writeln!(out, "  none");
    }
    writeln!(out, "  {}", sequence.name())?;
    fields::words(out, s)
}

impl Shown {
    // The steps in an answer, side by side. Once the AVR has begun, a Pi that has not never will.
    fn side_by_side<W: Write>(&self, out: &mut W, plain: &[u8]) -> io::Result<()> {
        let handed_over = split::step_of(plain, b'A').is_some();
        let mut blanks = INDENT;
        for ((letter, _), before) in START_UPS.iter().zip(&self.steps) {
            let step = split::step_of(plain, *letter);
            let how = match step {
                Some(_) if before.is_none() || ticks(plain, *letter) => " now ",
                Some(_) => " still ",
                None if handed_over => " no camera",
                None => " has not begun",
            };
            fold::blanks(out, blanks)?;
            let columns = stands(out, *letter, how, step.unwrap_or(b""))?;
            blanks = WIDTH.saturating_sub(columns);
        }
        writeln!(out)
    }

    // A part that says nothing of whether the call was accepted. The first step is laid out with those behind it.
    pub fn of_session<W: Write>(&self, out: &mut W, plain: &[u8], part: &[u8]) -> io::Result<()> {
        let mut s = part;
        if let Some(state) = part.strip_prefix(b"state ") {
            line(out, b"state")?;
            s = state;
        }
        let [letter, b' ', rest @ ..] = s else {
            return self.other(out, s);
        };
        match START_UPS.iter().find(|(own, _)| own == letter) {
            Some((_, sequence)) if !split::is_step(rest) => words(out, *letter, *sequence, rest),
            Some((b'D', _)) => self.side_by_side(out, plain),
            Some(_) => Ok(()),
            None => self.other(out, s),
        }
    }

    // Goes on with the steps in an answer. Behind one without steps they stay.
    pub fn follow(&mut self, plain: &[u8]) {
        for ((letter, sequence), step) in START_UPS.iter().zip(self.steps.iter_mut()) {
            if let Some(answered) = split::step_of(plain, *letter) {
                *step = sequence.step(answered);
            }
        }
    }

    // Whether each of the sequences is done, and then whether the session is.
    pub fn session_ended<W: Write>(&self, out: &mut W) -> io::Result<()> {
        let handed_over = matches!(self.steps, [_, Some(_), _]);
        let mut done = handed_over;
        for ((_, sequence), step) in START_UPS.iter().zip(&self.steps) {
            match step {
                Some(step) => {
                    ended(out, *sequence, *step)?;
                    done &= step.is_last();
                }
                None if handed_over => writeln!(out, "{}: no camera", sequence.name())?,
                None => writeln!(out, "{} has not begun", sequence.name())?,
            }
        }
        writeln!(out, "the session is {}done", if done { "" } else { "not " })
    }
}
