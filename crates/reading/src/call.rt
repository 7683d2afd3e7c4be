// The call that a line makes.
ghost use Rattle.std.specs.Prelude.{◌≡◌, [], IfOk};
ghost use Rattle.settings.specs.Settings.{mode_only};
ghost use Rattle.reading.specs.Lending.{lent_bytes};

use crate::run_settings::{avr_config, mevo_settings, mode_only};
use device::model::DeviceModel;
use messages::{message, params};
use protocol::{BusAddr, Message};
use settings::AvrSettings;
use sheet::StartUp;
use std::alloc::{AllocError, Global};
use words::{Bad, LINE, Reader, Reason, Value, named};

#[derive(Clone, Copy)]
pub enum Sequence {
    Dsp,
    // with the model, if one is given
    Avr(Option<DeviceModel>),
    Pi,
    // with the settings that stand in `Lent`: here they would make each call four times as large, which is copied and cleared several times a line
    AvrConfig,
    Disarm,
    // with the model, if one is given
    Arm(Option<DeviceModel>),
    // of a whole unit: it runs three sequences, and stands here as one
    Session,
}

// What a call is lent: bytes, and the settings of a run that it begins. Only a line that is too long could have more bytes than there is room for.
#[derive(Drop)]
pub struct Lent {
    text: Vec<u8>,
    payload: Vec<u8>,
    pub settings: AvrSettings,
}

impl Lent {
    pub fn new(alloc: Global) -> Result<Lent, AllocError>
        ensures empty { IfOk result (λ l. lent_bytes l ≡ []) }
        ensures settings { IfOk result (λ l. l.settings ≡ mode_only 0) }
    {
        Ok(Lent {
            text: Vec::with_capacity(alloc, LINE)?,
            payload: Vec::with_capacity(alloc, LINE)?,
            settings: AvrSettings::mode_only(0),
        })
    }
}

// The calls that a sequence has beside `feed`, which each has. A sheet is that of the start-up that runs, or of one that the call names.
#[derive(Clone, Copy)]
pub struct Calls {
    pub check: bool,
    pub result: bool,
    pub take: bool,
    pub retries: bool,
    pub sheet: bool,
    pub sheet_of: bool,
}

// An envelope and a line's clocks, which no envelope of the crates below the programs has.
#[derive(Clone, Copy)]
pub struct Feed<'b> {
    pub now: u64,
    pub src: BusAddr,
    pub type_id: u8,
    pub message: Message,
    // those of a `ConfigResp`, and zeros with any other message
    pub params: [i16; 34],
    pub text: &'b [u8],
    pub payload: &'b [u8],
    // the wall clock's seconds
    pub wall: u64,
}

// The most bytes that are lent for a sheet.
pub const SHEET_BUFFER: usize = 1_024;

// A buffer that is lent for a sheet, and the place in it from which on the sheet is to stand.
#[derive(Clone, Copy)]
pub struct SheetBuffer {
    pub at: u64,
    pub len: usize,
}

// A call that no sequence is needed for.
#[derive(Clone, Copy)]
pub enum DeviceCall<'b> {
    Ack(DeviceModel, BusAddr, u8),
    Keepalive,
    KeepaliveFor(DeviceModel),
    // of a device-info payload
    Model(&'b [u8]),
}

#[derive(Clone, Copy)]
pub enum Call<'b> {
    Begin(Sequence),
    Feed(Feed<'b>),
    Check(u64),
    Result,
    Take,
    Retries,
    // of which start-up, where more than one may run, and with the buffer, if the call names one
    Sheet(Option<StartUp>, Option<SheetBuffer>),
    Device(DeviceCall<'b>),
}

// The calls that begin a sequence.
#[derive(Clone, Copy)]
enum Begin {
    Dsp,
    Avr,
    Pi,
    AvrConfig,
    ModeOnly,
    MevoSettings,
    Disarm,
    Arm,
    Session,
}

// The calls, without what stands behind their names.
#[derive(Clone, Copy)]
enum Name {
    Begin(Begin),
    Feed,
    Check,
    Result,
    Take,
    Retries,
    Sheet,
    Ack,
    Keepalive,
    Model,
}

const NAMES: [(&str, Name); 18] = [
    ("feed", Name::Feed),
    ("dsp", Name::Begin(Begin::Dsp)),
    ("avr", Name::Begin(Begin::Avr)),
    ("pi", Name::Begin(Begin::Pi)),
    ("avr_config", Name::Begin(Begin::AvrConfig)),
    ("mode_only", Name::Begin(Begin::ModeOnly)),
    ("mevo_settings", Name::Begin(Begin::MevoSettings)),
    ("disarm", Name::Begin(Begin::Disarm)),
    ("arm", Name::Begin(Begin::Arm)),
    ("session", Name::Begin(Begin::Session)),
    ("check", Name::Check),
    ("result", Name::Result),
    ("take", Name::Take),
    ("retries", Name::Retries),
    ("sheet", Name::Sheet),
    ("ack", Name::Ack),
    ("keepalive", Name::Keepalive),
    ("model", Name::Model),
];

impl Value for Name {
    fn read(word: &[u8]) -> Result<Name, Reason> {
        named(word, &NAMES).ok_or(Reason::UnknownCall)
    }
}

// Whether the sequence that runs has a call; `None` before the first sequence.
fn its_call(has: Option<bool>) -> Result<(), Bad> {
    let why = match has {
        Some(true) => return Ok(()),
        Some(false) => Reason::NotItsCall,
        None => Reason::NotBegun,
    };
    Err(Bad { at: 0, why })
}

// A model, if one is given.
fn given_model(reader: &mut Reader<'_>) -> Result<Option<DeviceModel>, Bad> {
    if reader.is_done() {
        return Ok(None);
    }
    Ok(Some(reader.next()?))
}

fn read_feed<'b>(reader: &mut Reader<'_>, lent: &'b mut Lent) -> Result<Call<'b>, Bad> {
    let now = reader.next()?;
    let src = reader.next()?;
    let type_id = reader.next()?;
    let message = message(reader, &mut lent.text)?;
    let params = match message {
        Message::ConfigResp => params(reader)?,
        _ => [0; 34],
    };
    reader.bytes_of("text=", &mut lent.text)?;
    reader.bytes_of("payload=", &mut lent.payload)?;
    let wall = if reader.passes("wall=") {
        reader.value()?
    } else {
        0
    };
    Ok(Call::Feed(Feed {
        now,
        src,
        type_id,
        message,
        params,
        text: &lent.text,
        payload: &lent.payload,
        wall,
    }))
}

// How many bytes are lent for a sheet.
struct BufferLen(usize);

impl Value for BufferLen {
    fn read(word: &[u8]) -> Result<BufferLen, Reason> {
        let len = usize::from(u16::read(word)?);
        if SHEET_BUFFER < len {
            return Err(Reason::OutOfRange);
        }
        Ok(BufferLen(len))
    }
}

// The buffer for a sheet, if one is named.
fn sheet_buffer(reader: &mut Reader<'_>) -> Result<Option<SheetBuffer>, Bad> {
    if reader.is_done() {
        return Ok(None);
    }
    let at = reader.next()?;
    let BufferLen(len) = reader.next()?;
    Ok(Some(SheetBuffer { at, len }))
}

// A start-up by its letter. A struct, since `Value` may not stand beside an enum of another crate.
struct Letter(StartUp);

impl Value for Letter {
    fn read(word: &[u8]) -> Result<Letter, Reason> {
        Ok(Letter(match word {
            b"D" => StartUp::Dsp,
            b"A" => StartUp::Avr,
            b"P" => StartUp::Pi,
            _ => return Err(Reason::UnknownStartUp),
        }))
    }
}

// A call for a sheet: of a session with the letter of the start-up.
fn read_sheet(reader: &mut Reader<'_>, running: Option<Calls>) -> Result<Call<'static>, Bad> {
    its_call(running.map(|calls| calls.sheet || calls.sheet_of))?;
    let mut start_up = None;
    if running.is_some_and(|calls| calls.sheet_of) {
        let Letter(named) = reader.next()?;
        start_up = Some(named);
    }
    Ok(Call::Sheet(start_up, sheet_buffer(reader)?))
}

fn ack(reader: &mut Reader<'_>) -> Result<DeviceCall<'static>, Bad> {
    Ok(DeviceCall::Ack(reader.next()?, reader.next()?, reader.next()?))
}

fn keepalive(reader: &mut Reader<'_>) -> Result<DeviceCall<'static>, Bad> {
    if reader.is_done() {
        return Ok(DeviceCall::Keepalive);
    }
    Ok(DeviceCall::KeepaliveFor(reader.next()?))
}

fn model<'b>(reader: &mut Reader<'_>, lent: &'b mut Lent) -> Result<Call<'b>, Bad> {
    reader.skip_blanks();
    reader.bytes(&mut lent.payload)?;
    Ok(Call::Device(DeviceCall::Model(&lent.payload)))
}

fn read_call<'b>(
    reader: &mut Reader<'_>,
    running: Option<Calls>,
    lent: &'b mut Lent,
) -> Result<Call<'b>, Bad> {
    match reader.next()? {
        Name::Feed => {
            its_call(running.map(|_| true))?;
            read_feed(reader, lent)
        }
        Name::Model => model(reader, lent),
        Name::Begin(begin) => Ok(Call::Begin(read_sequence(reader, begin, &mut lent.settings)?)),
        Name::Check => {
            its_call(running.map(|calls| calls.check))?;
            Ok(Call::Check(reader.next()?))
        }
        Name::Result => {
            its_call(running.map(|calls| calls.result))?;
            Ok(Call::Result)
        }
        Name::Take => {
            its_call(running.map(|calls| calls.take))?;
            Ok(Call::Take)
        }
        Name::Retries => {
            its_call(running.map(|calls| calls.retries))?;
            Ok(Call::Retries)
        }
        Name::Sheet => read_sheet(reader, running),
        Name::Ack => Ok(Call::Device(ack(reader)?)),
        Name::Keepalive => Ok(Call::Device(keepalive(reader)?)),
    }
}

// The sequence that a call begins. The settings of a run go to `settings`.
fn read_sequence(
    reader: &mut Reader<'_>,
    begin: Begin,
    settings: &mut AvrSettings,
) -> Result<Sequence, Bad> {
    *settings = match begin {
        Begin::Dsp => return Ok(Sequence::Dsp),
        Begin::Avr => return Ok(Sequence::Avr(given_model(reader)?)),
        Begin::Pi => return Ok(Sequence::Pi),
        Begin::AvrConfig => avr_config(reader)?,
        Begin::ModeOnly => mode_only(reader)?,
        Begin::MevoSettings => mevo_settings(reader)?,
        Begin::Disarm => return Ok(Sequence::Disarm),
        Begin::Arm => return Ok(Sequence::Arm(given_model(reader)?)),
        Begin::Session => return Ok(Sequence::Session),
    };
    Ok(Sequence::AvrConfig)
}

// Whether a line, of which not all need be readable, names another call than a feed, or where its kind stands another kind than a network reply.
pub fn names_another(line: &[u8]) -> bool {
    let mut reader = Reader::new(line);
    match reader.next() {
        Ok(Name::Feed) => {}
        Ok(_) => return true,
        Err(_) => return false,
    }
    // the reading, the source and the type id
    for _ in 0..3 {
        reader.skip_blanks();
        reader.word();
    }
    messages::names_another(&mut reader)
}

// The call of a line, if it is no comment. The sequence that runs has these calls; `None` before the first sequence.
pub fn read_line<'b>(
    line: &[u8],
    running: Option<Calls>,
    lent: &'b mut Lent,
) -> Result<Option<Call<'b>>, Bad> {
    if LINE < line.len() {
        return Err(Bad {
            at: LINE,
            why: Reason::LongLine,
        });
    }
    let mut reader = Reader::new(line.strip_suffix(b"\r").unwrap_or(line));
    if reader.is_done() || reader.next_is("#") {
        return Ok(None);
    }
    let call = read_call(&mut reader, running, lent)?;
    reader.end()?;
    Ok(Some(call))
}
