// The sheet of a start-up, to hang beside the unit: a line for each entry that is ticked.
#![tactic(auto)]

ghost use Rattle.std.specs.Prelude.{◌≡◌, cond, ◌≤◌, ◌++◌, [], length, drop, decimal};
ghost use Rattle.sheet.specs.Decimal.{Decimal};
ghost use Rattle.sheet.specs.Lowest.{Theorem};
ghost use Rattle.sheet.specs.Sheet.{start_up_letter, how_letter, line, sheet, answered, written, number};
ghost use Rattle.sheet.specs.Ticks.{how_of, stored, with_tick, then_tick, kept};
ghost use Rattle.sheet.specs.declared.How.{How};

use itoa::Buffer;
use protocol::Message;

// The most entries of a table: the Pi's.
const MAX_TICKS: usize = 16;

/// How an entry was ticked.
#[derive(Clone, Copy, PartialEq, Eq)]
pub enum How {
    /// By a reply or an acknowledgement.
    Reply,
    /// By a nack.
    Nack,
    /// By a check, once the wait was over.
    Check,
}

/// What a start-up keeps of an entry that is ticked.
#[derive(Clone, Copy, PartialEq, Eq)]
pub struct Tick {
    /// Of the feed or check that ticked it, in nanoseconds; 0 where there is no clock, as in a Pi start-up.
    pub reading: u64,
    pub how: How,
}

/// The ticks of a start-up, in the order of its entries. Places from `len` on hold what a start leaves there: reading 0, a reply.
#[derive(Clone, Copy)]
pub struct Ticks {
    pub ticks: [Tick; 16],
    /// How many there are.
    pub len: usize,
}

/// Which start-up a sheet is of.
#[derive(Clone, Copy, PartialEq, Eq)]
pub enum StartUp {
    Dsp,
    Avr,
    Pi,
}

/// Why a sheet is refused. Nothing is written then.
#[derive(Clone, Copy, PartialEq, Eq)]
pub enum SheetRefusal {
    /// The part of the buffer is shorter than the sheet, or its place is past the buffer's end.
    PartTooShort = 5,
}

impl SheetRefusal {
    /// Its number among all refusals.
    pub fn number(self) -> u8
        ensures { result ≡ number self }
    {
        self as u8
    }
}

impl How {
    // How a message ticks the entry that it ticks.
    fn of(message: Message) -> How
        ensures { result ≡ how_of message }
    {
        match message {
            Message::ConfigNack(_) => How::Nack,
            _ => How::Reply,
        }
    }

    /// Its letter: R, N or K.
    pub fn letter(self) -> u8
        ensures { result ≡ how_letter self }
    {
        match self {
            How::Reply => b'R',
            How::Nack => b'N',
            How::Check => b'K',
        }
    }
}

impl StartUp {
    fn letter(self) -> u8
        ensures { result ≡ start_up_letter self }
    {
        match self {
            StartUp::Dsp => b'D',
            StartUp::Avr => b'A',
            StartUp::Pi => b'P',
        }
    }
}

impl Tick {
    /// By a feed of this message, `reading` being its reading.
    pub fn fed(message: Message, reading: u64) -> Tick
        ensures { result ≡ record { reading = reading; how = how_of message } }
    {
        Tick {
            reading,
            how: How::of(message),
        }
    }

    /// By a check with this reading.
    pub fn checked(reading: u64) -> Tick
        ensures { result ≡ record { reading = reading; how = How.Check } }
    {
        Tick {
            reading,
            how: How::Check,
        }
    }
}

impl Ticks {
    /// Nothing is ticked.
    pub fn none() -> Ticks
        ensures { result ≡ stored [] }
    {
        let no_tick = Tick {
            reading: 0,
            how: How::Reply,
        };
        Ticks {
            ticks: [no_tick; 16],
            len: 0,
        }
    }

    /// One tick more. Where there is no room, which no start-up comes to, they stay as they are.
    pub fn with(self, tick: Tick) -> Ticks
        ensures { result ≡ with_tick self tick }
    {
        let mut more = self;
        if more.len < MAX_TICKS {
            more.ticks[more.len] = tick;
            more.len += 1;
        }
        more
    }

    /// What an accepted feed or check leaves: one tick more if it ticked an entry.
    pub fn then(self, ticked: bool, tick: Tick) -> Ticks
        ensures { result ≡ then_tick self ticked tick }
    {
        if ticked { self.with(tick) } else { self }
    }

    /// The ticks that there are; of a length past the array, all of its places.
    pub fn as_slice(&self) -> &[Tick]
        ensures { result.now ≡ kept self.now }
    {
        &self.ticks[..self.len.min(MAX_TICKS)]
    }
}

// ---- a line

// How many digits a number has.
fn digits(number: u64) -> usize
    ensures count { result ≡ length (decimal number) }
    ensures few { result ≤ 40 }
{
    Buffer::new().format(number).len()
}

// How long a line is.
fn line_len(start_up: StartUp, number: u64, tick: Tick) -> usize
    ensures count { result ≡ length (line start_up number tick) }
    ensures few { result ≤ 100 }
{
    2 + digits(number) + 1 + digits(tick.reading) + 3
}

// Writes these bytes at the beginning of the part, and answers how many they are.
fn put(part: &mut [u8], bytes: &[u8]) -> usize
    requires { length bytes.now ≤ length part.old }
    ensures count { result ≡ length bytes.now }
    ensures text { part.new ≡ bytes.now ++ drop (length bytes.now) part.old }
{
    part[..bytes.len()].copy_from_slice(bytes);
    bytes.len()
}

// The same of a number.
fn put_number(part: &mut [u8], number: u64) -> usize
    requires { length (decimal number) ≤ length part.old }
    ensures count { result ≡ length (decimal number) }
    ensures text { part.new ≡ decimal number ++ drop (length (decimal number)) part.old }
{
    put(part, Buffer::new().format(number).as_bytes())
}

// Writes a line at the beginning of the part, and answers its length.
fn write_line(part: &mut [u8], start_up: StartUp, number: u64, tick: Tick) -> usize
    requires { length (line start_up number tick) ≤ length part.old }
    ensures count { result ≡ length (line start_up number tick) }
    ensures text { part.new ≡ line start_up number tick ++ drop (length (line start_up number tick)) part.old }
{
    let mut at = put(part, &[start_up.letter(), b',']);
    at += put_number(&mut part[at..], number);
    at += put(&mut part[at..], b",");
    at += put_number(&mut part[at..], tick.reading);
    at += put(&mut part[at..], &[b',', tick.how.letter(), b'\n']);
    at
}

// ---- the sheet

// How long a sheet is.
fn sheet_len(start_up: StartUp, ticks: &[Tick]) -> usize
    requires { length ticks.now ≤ 16 }
    ensures { result ≡ length (sheet start_up ticks.now) }
{
    let mut len = 0;
    for (i, tick) in ticks.iter().enumerate() {
        len += line_len(start_up, i as u64 + 1, *tick);
    }
    len
}

/// Writes the sheet of these ticks into the part of `buf` that begins at place `at` and reaches to the buffer's end: each line at the
/// beginning of a later part. Answers how many bytes that is; what stands before the place and behind the sheet stays. Refused with 5
/// where the part is shorter than the sheet or the place is past the buffer's end, and then nothing is written.
pub fn write(
    start_up: StartUp,
    ticks: &Ticks,
    buf: &mut [u8],
    at: usize,
) -> Result<usize, SheetRefusal>
    ensures answer { result ≡ answered (sheet start_up (kept ticks.now)) at buf.old }
    ensures buffer { buf.new ≡ written (sheet start_up (kept ticks.now)) at buf.old }
{
    let ticks = ticks.as_slice();
    let len = sheet_len(start_up, ticks);
    if buf.len() < at || buf.len() - at < len {
        return Err(SheetRefusal::PartTooShort);
    }
    let mut end = at;
    for (i, tick) in ticks.iter().enumerate() {
        end += write_line(&mut buf[end..], start_up, i as u64 + 1, *tick);
    }
    Ok(len)
}

/// Numbers on a sheet are decimal: digits alone, of the value that they have, and none that begins with a 0 but 0 itself.
pub fn decimal_numbers()
    ensures { Decimal }
{}

/// Of the numbers that apply to a sheet that is asked for the lowest is given; it is the number of one refusal, and of none of the other
/// calls'.
pub fn lowest_number()
    ensures { Theorem }
{}

#[cfg(test)]
mod tests {
    use super::*;
    use protocol::DspStatus;

    #[test]
    fn a_status_and_a_check(rt: HostRuntime) {
        let status = Tick::fed(Message::DspStatus(DspStatus::none()), 5_000_000_000);
        let query = Tick::checked(7_000_000_000);
        let two = Ticks::none().with(status).with(query);
        let mut buf = [b'.'; 41];
        assert!(rt; write(StartUp::Dsp, &two, &mut buf, 3) == Ok(34));
        assert!(rt; buf == *b"...D,1,5000000000,R\nD,2,7000000000,K\n....");
        assert!(rt; write(StartUp::Dsp, &two, &mut buf, 8) == Err(SheetRefusal::PartTooShort));
        assert!(rt; write(StartUp::Pi, &Ticks::none(), &mut buf, 41) == Ok(0));
        assert!(rt;
            write(StartUp::Pi, &Ticks::none(), &mut buf, 42) == Err(SheetRefusal::PartTooShort)
        );
    }
}
