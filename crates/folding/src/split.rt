// Takes an answer apart. Its parts have a semicolon and a blank between them, the words of a part a blank. A text between bars may hold
// either; it has a byte for each two digits before it.

ghost use Rattle.std.specs.Prelude.{◌≡◌};
ghost use Rattle.folding.specs.Apart.{is_step, outside_all, is_outside, behind};

// Where the texts of an answer are, as it is gone through byte by byte: `answer.split(|b| texts.outside(*b) && *b == b';')`.
#[derive(Clone, Copy)]
pub struct Texts {
    // the digits so far of a value
    digits: usize,
    // the bytes that are left of a text, with the bar behind it
    left: usize,
}

impl Texts {
    pub fn new() -> Texts
        ensures { result ≡ outside_all }
    {
        Texts { digits: 0, left: 0 }
    }

    // Whether the next byte stands outside of them.
    pub fn outside(&mut self, b: u8) -> bool
        ensures outside { result ≡ is_outside self.old }
        ensures after { self.new ≡ behind b self.old }
    {
        if 0 < self.left {
            self.left -= 1;
            return false;
        }
        match b {
            b'=' | b' ' => self.digits = 0,
            b'|' => self.left = (self.digits / 2).saturating_add(1),
            _ => self.digits = self.digits.saturating_add(1),
        }
        true
    }
}

// What stands before the first of these bytes, and what behind it.
pub fn split_once(s: &[u8], at: u8) -> Option<(&[u8], &[u8])> {
    let n = s.iter().position(|b| *b == at)?;
    Some((&s[..n], &s[n + 1..]))
}

pub fn is_step(s: &[u8]) -> bool
    ensures { result ≡ is_step s.now }
{
    s.starts_with(b"Wait") || s.starts_with(b"Done")
}

// The step in an answer of a session, behind the letter of its sequence.
pub fn step_of(answer: &[u8], letter: u8) -> Option<&[u8]> {
    let mut texts = Texts::new();
    let mut parts = answer.split(|b| texts.outside(*b) && *b == b';');
    parts.find_map(|part| match part.trim_ascii_start() {
        [own, b' ', step @ ..] if *own == letter && is_step(step) => Some(step),
        _ => None,
    })
}

// The step in an answer.
pub fn step(answer: &[u8]) -> Option<&[u8]> {
    let mut texts = Texts::new();
    let parts = answer.split(|b| texts.outside(*b) && *b == b';');
    parts
        .map(|part| part.trim_ascii_start())
        .find(|part| is_step(part))
}
