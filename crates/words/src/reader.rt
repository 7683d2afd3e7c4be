// A line that is read, word by word.
ghost use Rattle.std.specs.Prelude.{◌≡◌, nat_eq, take, drop, codes, if◌then◌else◌};
ghost use Rattle.std.specs.List.{starts_with};
ghost use Rattle.words.specs.Line.{whole, left, place, is_blank, ends_word, passed};

use crate::reason::{Bad, Reason};
use crate::value::Value;

// The most bytes of a line, without its line feed.
pub const LINE: usize = 65_536;

// A line, and what is left of it.
#[derive(Clone, Copy)]
pub struct Reader<'a> {
    line: &'a [u8],
    pub(crate) rest: &'a [u8],
}

fn is_blank(b: u8) -> bool
    ensures { result ≡ is_blank b }
{
    b == b' ' || b == b'\t'
}

impl<'a> Reader<'a> {
    pub fn new(line: &'a [u8]) -> Reader<'a>
        ensures line { whole result ≡ line.now }
        ensures rest { left result ≡ line.now }
    {
        Reader { line, rest: line }
    }

    // Where reading stands: the bytes before it.
    pub(crate) fn at(&self) -> usize
        ensures { result ≡ place self.now }
    {
        self.line.len().saturating_sub(self.rest.len())
    }

    // The line can't be read from here on.
    pub fn bad(&self, why: Reason) -> Bad
        ensures { result ≡ record { at = place self.now; why = why } }
    {
        Bad { at: self.at(), why }
    }

    // Passes the next `n` bytes, or all that are left.
    pub(crate) fn pass(&mut self, n: Option<usize>) -> &'a [u8]
        ensures bytes { result.now ≡ take (passed n (left self.old)) (left self.old) }
        ensures rest { left self.new ≡ drop (passed n (left self.old)) (left self.old) }
        ensures line { whole self.new ≡ whole self.old }
    {
        let left = self.rest.len();
        let (passed, rest) = self.rest.split_at(n.unwrap_or(left).min(left));
        self.rest = rest;
        passed
    }

    pub fn skip_blanks(&mut self) {
        let n = self.rest.iter().position(|b| !is_blank(*b));
        self.pass(n);
    }

    // Passes what stands here, up to the next blank.
    pub fn word(&mut self) -> &'a [u8] {
        let n = self.rest.iter().position(|b| is_blank(*b));
        self.pass(n)
    }

    // Passes what stands here, up to the next comma or blank.
    pub(crate) fn element(&mut self) -> &'a [u8] {
        let n = self.rest.iter().position(|b| *b == b',' || is_blank(*b));
        self.pass(n)
    }

    // Whether a word ends here.
    pub(crate) fn ends_word(&self) -> bool
        ensures { result ≡ ends_word (left self.now) }
    {
        self.rest.first().is_none_or(|b| is_blank(*b))
    }

    // Whether nothing but blanks is left.
    pub fn is_done(&mut self) -> bool {
        self.skip_blanks();
        self.rest.is_empty()
    }

    pub fn end(&mut self) -> Result<(), Bad> {
        if self.is_done() {
            return Ok(());
        }
        Err(self.bad(Reason::NoEnd))
    }

    // Whether these bytes stand next.
    pub fn next_is(&mut self, name: &str) -> bool {
        self.skip_blanks();
        self.rest.starts_with(name.as_bytes())
    }

    // Passes these bytes, if they stand next.
    pub fn passes(&mut self, name: &str) -> bool {
        self.skip_blanks();
        let Some(rest) = self.rest.strip_prefix(name.as_bytes()) else {
            return false;
        };
        self.rest = rest;
        true
    }

    // Whether a comma stands here. It is passed.
    pub fn passes_comma(&mut self) -> bool
        ensures comma { result ≡ starts_with nat_eq (left self.old) (codes ",") }
        ensures rest { left self.new ≡ (if result then drop 1 (left self.old) else left self.old) }
        ensures line { whole self.new ≡ whole self.old }
    {
        let Some(rest) = self.rest.strip_prefix(b",") else {
            return false;
        };
        self.rest = rest;
        true
    }

    // The value of a list that begins here: it may end at a comma.
    pub fn listed<T: Value>(&mut self) -> Result<T, Bad> {
        let start = *self;
        T::read(self.element()).map_err(|why| start.bad(why))
    }

    // The value that begins here.
    pub fn value<T: Value>(&mut self) -> Result<T, Bad> {
        let start = *self;
        T::read(self.word()).map_err(|why| start.bad(why))
    }

    // The next word's value.
    pub fn next<T: Value>(&mut self) -> Result<T, Bad> {
        self.skip_blanks();
        self.value()
    }

    // Passes the name of a field, with its =, that has to stand next.
    pub fn name(&mut self, name: &'static str) -> Result<(), Bad> {
        if self.passes(name) {
            return Ok(());
        }
        Err(self.bad(Reason::Expected(name)))
    }

    // The value of the field that has to stand next.
    pub fn field<T: Value>(&mut self, name: &'static str) -> Result<T, Bad> {
        self.name(name)?;
        self.value()
    }
}
