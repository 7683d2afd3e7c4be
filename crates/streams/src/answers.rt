// The answers to a list's calls, as they are written out.
use crate::lines::Line;
use crate::running::Sequence;
use crate::withheld::Withheld;
use crate::{Failure, withheld};
use reading::{Call, DeviceCall};
use showing::Shown;
use std::alloc::Global;
use std::io;
use std::io::{BufWriter, Write};
use words::{Bad, LINE};

// The bytes that are kept before they are written out. They are written once there are more than NEARLY_FULL: no answer is longer than the rest.
const OUT: usize = 163_840;

const NEARLY_FULL: usize = 98_304;

// The same before a line of a list that is shown: it takes up to 79,000 bytes, folded, and the mark and the answer come behind it.
const ROOM_FOR_LINE: usize = 16_384;

// The longest answers are results with the state of a session: some 26,000 bytes.
const ANSWER: usize = 32_768;

// How answers are written: whether for people, and then whether with what else is withheld; and whether with the stored state behind each.
#[derive(Clone, Copy)]
pub struct Form {
    pub shown: bool,
    pub secrets: bool,
    pub with_state: bool,
}

// The text of the answer to a line. A `Vec` is a writer as well, but each of its writes goes through a loop, which took a fifth of the time with --state.
#[derive(Drop)]
pub struct Text {
    bytes: Vec<u8>,
    // whether the camera's network is withheld, and whether anything was so far
    withholds: bool,
    withheld: bool,
}

impl Text {
    // Whether the camera's network, which comes next, is withheld.
    pub fn withholds(&mut self) -> bool {
        self.withheld |= self.withholds;
        self.withholds
    }
}

impl Write for Text {
    fn write(&mut self, bytes: &[u8]) -> io::Result<usize> {
        self.write_all(bytes)?;
        Ok(bytes.len())
    }

    #[inline(always)]
    fn write_all(&mut self, bytes: &[u8]) -> io::Result<()> {
        self.bytes.extend_from_slice(bytes)?;
        Ok(())
    }

    fn flush(&mut self) -> io::Result<()> {
        Ok(())
    }
}

#[derive(Drop)]
pub struct Answers<W: Write + Drop> {
    output: BufWriter<W>,
    // the answer to the line that is read, and the line's number
    pub answer: Text,
    number: u64,
    // what is withheld of the line, and then the line as it is shown
    withheld: Option<Withheld>,
    line: Vec<u8>,
    with_state: bool,
    // what a list that is shown goes by
    shown: Option<Shown>,
    // how many lines could not be read
    pub bad_lines: u64,
}

// What a list that is shown goes by: the sequence that a call begins, or the reading of one that has a reading.
fn show_call(shown: &mut Shown, call: &Call<'_>) {
    shown.called();
    match call {
        Call::Begin(sequence) => shown.begun(shown_sequence(sequence)),
        Call::Feed(feed) => shown.read(feed.now),
        Call::Check(now) => shown.read(*now),
        _ => {}
    }
}

// Whether a call takes a Mevo since its line gives no model.
fn gives_no_model(call: &Call<'_>) -> bool {
    matches!(
        call,
        Call::Begin(reading::Sequence::Avr(None) | reading::Sequence::Arm(None))
            | Call::Device(DeviceCall::Keepalive)
    )
}

// Not a `From`: both types are of crates below, where the lower one knows no models.
fn shown_sequence(sequence: &reading::Sequence) -> showing::tables::Sequence {
    match sequence {
        reading::Sequence::Dsp => showing::tables::Sequence::Dsp,
        reading::Sequence::Avr(_) => showing::tables::Sequence::Avr,
        reading::Sequence::Pi => showing::tables::Sequence::Pi,
        reading::Sequence::AvrConfig => showing::tables::Sequence::Settings,
        reading::Sequence::Disarm => showing::tables::Sequence::Disarm,
        reading::Sequence::Arm(_) => showing::tables::Sequence::Arm,
        reading::Sequence::Session => showing::tables::Sequence::Session,
    }
}

impl<W: Write + Drop> Answers<W> {
    // Before the first line.
    pub fn new(alloc: Global, output: W, form: Form) -> Result<Answers<W>, Failure> {
        let shown = if form.shown { Some(Shown::new()) } else { None };
        Ok(Answers {
            output: BufWriter::with_capacity(alloc, OUT, output)?,
            answer: Text {
                bytes: Vec::with_capacity(alloc, ANSWER)?,
                withholds: form.shown && !form.secrets,
                withheld: false,
            },
            number: 0,
            withheld: None,
            line: Vec::new(alloc),
            with_state: form.with_state,
            shown,
            bad_lines: 0,
        })
    }

    pub fn write_out(&mut self) -> io::Result<()> {
        self.output.flush()
    }

    fn make_room(&mut self, most: usize) -> io::Result<()> {
        if most < self.output.buffer().len() {
            self.write_out()?;
        }
        Ok(())
    }

    // Before a line is answered, which was read so. The line itself is written if the list is shown; of a longer one than may be its first bytes are.
    pub fn begin(
        &mut self,
        line: Line<'_>,
        read: &Result<Option<Call<'_>>, Bad>,
    ) -> io::Result<()> {
        self.number = line.number;
        if self.shown.is_none() {
            return Ok(());
        }
        self.make_room(ROOM_FOR_LINE)?;
        let text = &line.text[..line.text.len().min(LINE)];
        self.withheld = None;
        if self.answer.withholds {
            self.withheld = withheld::of_line(text, read);
        }
        match self.withheld {
            Some(Withheld { from, .. }) => self.line_up_to(text, from),
            None => showing::line(&mut self.output, text),
        }
    }

    // Writes a line of which what stands from a place on is withheld.
    fn line_up_to(&mut self, text: &[u8], from: usize) -> io::Result<()> {
        self.answer.withheld = true;
        self.line.clear();
        self.line.extend_from_slice(&text[..from.min(text.len())])?;
        self.line.extend_from_slice(b" ")?;
        self.line.extend_from_slice(withheld::MARK.as_bytes())?;
        showing::line(&mut self.output, self.line.as_slice())
    }

    // Before the answer to a call. If the list is shown, a model that is taken by default is told.
    pub fn call(&mut self, call: &Call<'_>) -> io::Result<()> {
        if let Some(shown) = &mut self.shown {
            show_call(shown, call);
            if gives_no_model(call) {
                showing::model_by_default(&mut self.output)?;
            }
        }
        Ok(())
    }

    // Answers a line that can't be read. Below one that is shown the place is marked.
    pub fn bad(&mut self, line: Line<'_>, bad: &Bad) -> io::Result<()> {
        self.bad_lines = self.bad_lines.wrapping_add(1);
        if let Some(shown) = &mut self.shown {
            shown.unread();
            match self.withheld {
                Some(Withheld { fault: true, .. }) => {
                    write!(self.answer, "{}", withheld::FAULT)?;
                    return self.end();
                }
                Some(_) => showing::mark(&mut self.output, self.line.as_slice(), bad.at)?,
                None => showing::mark(&mut self.output, line.text, bad.at)?,
            }
        }
        write!(self.answer, "{bad}")?;
        self.end()
    }

    // Ends the answer to a line: it stands behind the line's number, or is laid out below the line if the list is shown.
    pub fn end(&mut self) -> io::Result<()> {
        match &mut self.shown {
            Some(shown) => shown.lay(&mut self.output, self.answer.bytes.as_slice())?,
            None => {
                let number = self.number;
                write!(self.output, "{number}: ")?;
                self.output.write_all(self.answer.bytes.as_slice())?;
                self.output.write_all(b"\n")?;
            }
        }
        self.answer.bytes.clear();
        self.make_room(NEARLY_FULL)
    }

    // Ends the answer of a sequence, with every stored field if they are asked for.
    pub fn end_in<S: Sequence>(&mut self, running: &S) -> io::Result<()> {
        if self.with_state {
            self.answer.write_all(b"; state")?;
            running.state(&mut self.answer)?;
        }
        self.end()
    }

    // After the last line: sums up a list that is shown, tells whether anything was withheld, and writes out what is left.
    pub fn finish(&mut self) -> io::Result<()> {
        if let Some(shown) = &self.shown {
            shown.sum_up(&mut self.output)?;
        }
        if self.answer.withheld {
            writeln!(self.output, "{}", withheld::NOTE)?;
        }
        self.write_out()
    }
}
