// Bytes: hexadecimal digits, or text between quotes.
use crate::reader::{LINE, Reader};
use crate::reason::{Bad, Reason};
use crate::value::{digit, is_hex};

// The byte that two digits write.
fn joined(high: u8, low: u8) -> u8 {
    digit(high) << 4 | digit(low)
}

impl<'a> Reader<'a> {
    // The bytes that begin here.
    pub fn bytes(&mut self, into: &mut Vec<u8>) -> Result<(), Bad> {
        into.clear();
        match self.rest.strip_prefix(b"\"") {
            Some(inside) => self.text(inside, into),
            None => self.hex(into),
        }
    }

    // The bytes of a field that may be left out.
    pub fn bytes_of(&mut self, name: &str, into: &mut Vec<u8>) -> Result<(), Bad> {
        if self.passes(name) {
            return self.bytes(into);
        }
        into.clear();
        Ok(())
    }

    fn hex(&mut self, into: &mut Vec<u8>) -> Result<(), Bad> {
        let start = *self;
        let digits = self.word();
        // all of them are looked at, so that many are compared at once
        if !digits.iter().fold(true, |all, b| all & is_hex(*b)) {
            let right = digits.iter().take_while(|b| is_hex(**b)).count();
            return Err(Bad {
                at: start.at().saturating_add(right),
                why: Reason::NotHex,
            });
        }
        if digits.len() % 2 != 0 {
            return Err(start.bad(Reason::OddHex));
        }
        into.extend(digits.chunks_exact(2).map(|pair| joined(pair[0], pair[1])))
            .map_err(|_| start.bad(Reason::LongLine))
    }

    // Passes the bytes of a text that stand for themselves.
    fn plain(&mut self) -> &'a [u8] {
        let n = self
            .rest
            .iter()
            .position(|b| matches!(*b, b'"' | b'\\' | 0..0x20));
        self.pass(n)
    }

    // A text, whose opening quote stands here. The turns are counted, where a `while` would need a proof file: each takes a byte
    // of the line or more.
    fn text(&mut self, inside: &'a [u8], into: &mut Vec<u8>) -> Result<(), Bad> {
        let quote = *self;
        self.rest = inside;
        for _ in 0..LINE {
            into.extend_from_slice(self.plain())
                .map_err(|_| quote.bad(Reason::LongLine))?;
            let (b, rest) = match self.rest {
                [b'"', rest @ ..] => {
                    self.rest = rest;
                    return self.closed();
                }
                [b'\\', b'x', high, low, rest @ ..] if is_hex(*high) && is_hex(*low) => {
                    (joined(*high, *low), rest)
                }
                [b'\\', b @ (b'"' | b'\\'), rest @ ..] => (*b, rest),
                [b'\\', ..] => return Err(self.bad(Reason::BadEscape)),
                [_, ..] => return Err(self.bad(Reason::ControlByte)),
                [] => break,
            };
            into.push(b).map_err(|_| quote.bad(Reason::LongLine))?;
            self.rest = rest;
        }
        Err(quote.bad(Reason::NotClosed))
    }

    // Behind a closing quote.
    fn closed(&self) -> Result<(), Bad> {
        if self.ends_word() {
            return Ok(());
        }
        Err(self.bad(Reason::NoEnd))
    }
}
