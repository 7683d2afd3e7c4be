// The lines of a list.
use crate::Failure;
use crate::answers::Answers;
use memchr::memchr;
use std::alloc::{AllocError, Global};
use std::io::{BufRead, BufReader, Read, Write};
use words::LINE;

// The bytes of one read.
const INPUT: usize = 65_536;

const BYTE_ORDER_MARK: &[u8] = b"\xEF\xBB\xBF";

// The most that is kept of a line: one byte more than it may have, so that a longer one shows, and the three of a byte order mark before it.
const LONGER: usize = LINE + 1 + 3;

// What was got of a line.
#[derive(Clone, Copy, PartialEq, Eq)]
enum Got {
    // bytes before its line feed
    Part,
    // its line feed
    End,
    // nothing: the input ends
    Nothing,
    // nothing: the input can't be read
    Failure,
}

#[derive(Drop)]
pub struct Lines<R: Read + Drop> {
    input: BufReader<R>,
    // the line that was read last, and its number, from 1
    line: Vec<u8>,
    number: u64,
    got: Got,
}

// A line, without its line feed. Of a longer one than may be it is the beginning, longer than may be, too.
#[derive(Clone, Copy)]
pub struct Line<'a> {
    pub number: u64,
    pub text: &'a [u8],
}

// Appends the next bytes of a line.
fn gather<R: Read + Drop>(input: &mut BufReader<R>, line: &mut Vec<u8>) -> Result<Got, AllocError> {
    let Ok(bytes) = input.fill_buf() else {
        return Ok(Got::Failure);
    };
    if bytes.is_empty() {
        return Ok(Got::Nothing);
    }
    let end = memchr(b'\n', bytes);
    let n = end.unwrap_or(bytes.len());
    let room = LONGER.saturating_sub(line.len());
    line.extend_from_slice(&bytes[..n.min(room)])?;
    input.consume(n.saturating_add(1));
    Ok(if end.is_some() { Got::End } else { Got::Part })
}

impl<R: Read + Drop> Lines<R> {
    // Before the first line.
    pub fn new(alloc: Global, input: R) -> Result<Lines<R>, Failure> {
        Ok(Lines {
            input: BufReader::with_capacity(alloc, INPUT, input)?,
            line: Vec::with_capacity(alloc, LONGER)?,
            number: 0,
            got: Got::Part,
        })
    }

    // The next line; the last one may lack its line feed. Nobody waits for an answer while it waits for input: what is answered is written out
    // before each read.
    pub fn next<W: Write + Drop>(
        &mut self,
        answers: &mut Answers<W>,
    ) -> Result<Option<Line<'_>>, Failure> {
        self.line.clear();
        self.number = self.number.wrapping_add(1);
        // A proved loop has to end, and nothing says that the input does. No run reads so often.
        for _ in 0..u64::MAX {
            if self.is_at_end() {
                break;
            }
            if self.input.buffer().is_empty() {
                answers.write_out()?;
            }
            self.got = gather(&mut self.input, &mut self.line)?;
            if self.got == Got::End {
                return Ok(Some(self.line()));
            }
        }
        if self.line.is_empty() {
            return Ok(None);
        }
        Ok(Some(self.line()))
    }

    // A byte order mark before the first line is taken as nothing.
    fn line(&self) -> Line<'_> {
        let mut text = self.line.as_slice();
        if self.number == 1 {
            text = text.strip_prefix(BYTE_ORDER_MARK).unwrap_or(text);
        }
        Line {
            number: self.number,
            text,
        }
    }

    fn is_at_end(&self) -> bool {
        self.got == Got::Nothing || self.is_broken()
    }

    // Whether the input could not be read to its end.
    pub fn is_broken(&self) -> bool {
        self.got == Got::Failure
    }
}
