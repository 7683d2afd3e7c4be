// A list of calls as it is answered: its lines, read one by one (lines), the answers as they are written out (answers), and the sequences, which answer
// its calls (running). Calls that no sequence is needed for are answered here (device_calls), and those for a sheet (sheets). Of a list that is shown some
// is withheld (withheld).
#![tactic(auto)]

pub mod answers;
mod device_calls;
pub mod lines;
pub mod running;
mod sheets;
pub mod withheld;

use answers::{Answers, Form};
use lines::Lines;
use reading::Lent;
use std::alloc::{AllocError, Global};
use std::io;
use std::io::{ErrorKind, Read, Write};

// Why a list was not answered to its end.
#[derive(Debug, Drop)]
pub enum Failure {
    // its input can't be read
    Input,
    // the answers can't be written
    Output(io::Error),
    OutOfMemory,
}

impl From<AllocError> for Failure {
    fn from(_error: AllocError) -> Failure {
        Failure::OutOfMemory
    }
}

// Of a write: one into memory fails only where there is none.
impl From<io::Error> for Failure {
    fn from(error: io::Error) -> Failure {
        match error.kind() {
            ErrorKind::OutOfMemory => Failure::OutOfMemory,
            _ => Failure::Output(error),
        }
    }
}

// A list that is being answered.
#[derive(Drop)]
pub struct List<R: Read + Drop, W: Write + Drop> {
    pub lines: Lines<R>,
    pub answers: Answers<W>,
    // what a call is lent
    pub lent: Lent,
}

impl<R: Read + Drop, W: Write + Drop> List<R, W> {
    // A list before its first line.
    pub fn new(alloc: Global, input: R, output: W, form: Form) -> Result<List<R, W>, Failure> {
        Ok(List {
            lines: Lines::new(alloc, input)?,
            answers: Answers::new(alloc, output, form)?,
            lent: Lent::new(alloc)?,
        })
    }

    // After the last line: writes what is left of the answers, and answers how many lines could not be read.
    pub fn finish(&mut self) -> Result<u64, Failure> {
        self.answers.finish()?;
        if self.lines.is_broken() {
            return Err(Failure::Input);
        }
        Ok(self.answers.bad_lines)
    }
}
