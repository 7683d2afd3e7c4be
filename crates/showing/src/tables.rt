// What the answers mean, in words.
use protocol::Refusal;
use sheet::SheetRefusal;
use std::fmt;

// Which sequence runs. The reader's has the model with it, too, which nothing here needs.
#[derive(Clone, Copy, PartialEq)]
pub enum Sequence {
    Dsp,
    Avr,
    Pi,
    Settings,
    Disarm,
    Arm,
    Session,
}

// A step, and what it waits for: nothing when it is done. The steps are texts: only the text of an answer is looked at here, and their enums stand in
// the crates of six sequences, so that reading them back from it would take six functions more.
#[derive(Clone, Copy, PartialEq)]
pub struct Step(pub &'static str, pub &'static str);

// All of them: oracle/tests/show.rs holds this to the enum.
const REFUSALS: [Refusal; 8] = [
    Refusal::TextTooLong,
    Refusal::PayloadTooLong,
    Refusal::ReadingTooLarge,
    Refusal::TooManyParams,
    Refusal::RepeatedParam,
    Refusal::ReadingBelowLast,
    Refusal::NotDone,
    Refusal::RetriesFull,
];

const DSP: [Step; 9] = [
    Step("WaitStatus", "DspStatus from Dsp"),
    Step(
        "WaitDspQuery",
        "DspQueryResp, or ConfigNack with acked_cmd=0x48 from Dsp, or a check after 2 s",
    ),
    Step("WaitDevInfo", "DevInfoResp from Dsp"),
    Step("WaitProdInfo0", "ProdInfoResp from Dsp"),
    Step("WaitProdInfo1", "ProdInfoResp from Dsp"),
    Step("WaitProdInfo2", "ProdInfoResp from Dsp"),
    Step("WaitConfig", "ConfigResp from Dsp"),
    Step(
        "WaitPowerMode",
        "ConfigAck or ConfigNack with acked_cmd=0x3F from Dsp, or a check after 2 s",
    ),
    Step("Done", ""),
];

const AVR: [Step; 13] = [
    Step("WaitStatus1", "AvrStatus from Avr"),
    Step("WaitStatus2", "AvrStatus from Avr"),
    Step("WaitDevInfo1", "DevInfoResp from Avr"),
    Step("WaitDevInfo2", "DevInfoResp from Avr"),
    Step("WaitParam0C", "ParamValue from Avr"),
    Step("WaitParam0D", "ParamValue from Avr"),
    Step("WaitConfig", "ConfigResp from Avr"),
    Step(
        "WaitFactoryCal",
        "CalDataResp from Avr, or a check after 2 s",
    ),
    Step("WaitIfCal", "CalParamResp from Avr, or a check after 2 s"),
    Step("WaitAvrConfig", "AvrConfigResp from Avr"),
    Step("WaitParam64", "ParamValue from Avr"),
    Step("WaitTimeSync", "TimeSync from Avr"),
    Step("Done", ""),
];

const PI: [Step; 9] = [
    Step("WaitStatus", "PiStatus from Pi"),
    Step("WaitDevInfo", "DevInfoResp from Pi"),
    Step("WaitParam0A", "ParamValue from Pi"),
    Step("WaitCamConfig1", "CamConfig from Pi"),
    Step("WaitCamConfig2", "CamConfig from Pi"),
    Step("WaitNetConfig", "NetConfigResp from Pi"),
    Step("WaitNetConfigPw", "NetConfigResp from Pi"),
    Step("WaitParams", "ParamValue from Pi"),
    Step("Done", ""),
];

const SETTINGS: [Step; 8] = [
    Step("WaitInitGateAck", "ConfigAck from Avr"),
    Step("WaitParamAck", "ConfigAck from Avr"),
    Step("WaitParamCommitAck", "ConfigAck from Avr"),
    Step("WaitModeEcho", "ModeSet from Avr"),
    Step("WaitModeCommitAck", "ConfigAck from Avr"),
    Step("WaitRadarCalEcho", "RadarCal from Avr"),
    Step("WaitRadarCalCommitAck", "ConfigAck from Avr"),
    Step("Done", ""),
];

const DISARM: [Step; 4] = [
    Step("WaitAck", "ConfigAck from Avr"),
    Step(
        "WaitModeReset",
        "ModeAck, or a Text that contains ARMED CANCELLED, from any source",
    ),
    Step(
        "WaitStateIdle",
        "ModeAck, or a Text that contains System State, from any source",
    ),
    Step("Done", ""),
];

const ARM: [Step; 7] = [
    Step("WaitDspStatus", "DspStatus from Dsp"),
    Step("WaitAvrStatus", "AvrStatus from Avr"),
    Step("WaitArmAck", "ConfigAck or ConfigNack from Avr"),
    Step(
        "WaitPiAndArmed got_pi=false got_armed=false",
        "a Text with ARMED behind no capital letter, and no CANCELLED, and a PiStatus, in either order, from any source",
    ),
    Step(
        "WaitPiAndArmed got_pi=true got_armed=false",
        "a Text with ARMED behind no capital letter, and no CANCELLED, from any source",
    ),
    Step(
        "WaitPiAndArmed got_pi=false got_armed=true",
        "a PiStatus from any source",
    ),
    Step("Done", ""),
];

impl Sequence {
    // A text, and no `Display`: the columns that it takes are counted.
    pub fn name(self) -> &'static str {
        match self {
            Sequence::Dsp => "the DSP start-up",
            Sequence::Avr => "the AVR start-up",
            Sequence::Pi => "the Pi start-up",
            Sequence::Settings => "the settings run",
            Sequence::Disarm => "the disarm",
            Sequence::Arm => "the arm",
            Sequence::Session => "the session",
        }
    }

    // None of a session, whose sequences have them.
    fn steps(self) -> &'static [Step] {
        match self {
            Sequence::Dsp => &DSP,
            Sequence::Avr => &AVR,
            Sequence::Pi => &PI,
            Sequence::Settings => &SETTINGS,
            Sequence::Disarm => &DISARM,
            Sequence::Arm => &ARM,
            Sequence::Session => &[],
        }
    }

    // The step of an answer, with its fields.
    pub fn step(self, answered: &[u8]) -> Option<Step> {
        self.steps()
            .iter()
            .find(|step| step.is_in(answered))
            .copied()
    }
}

impl Step {
    // Whether nothing is awaited any more.
    pub fn is_last(self) -> bool {
        self.1.is_empty()
    }

    // Whether an answer's step is this one: it is the name, or goes on with its fields.
    fn is_in(&self, answered: &[u8]) -> bool {
        match answered.strip_prefix(self.0.as_bytes()) {
            Some(fields) => fields.is_empty() || fields.starts_with(b" "),
            None => false,
        }
    }
}

// Why a sheet is refused.
const PART_TOO_SHORT: &str =
    "the part is shorter than the sheet, or the place is past the buffer's end";

// Why a call is refused: one for a sheet has a number that no other call is refused with.
#[derive(Clone, Copy)]
pub enum Reason {
    Call(Refusal),
    Sheet(SheetRefusal),
}

impl Reason {
    // By the number in an answer.
    pub fn of(number: &[u8]) -> Option<Reason> {
        let number: u8 = std::str::from_utf8(number).ok()?.parse().ok()?;
        if number == SheetRefusal::PartTooShort.number() {
            return Some(Reason::Sheet(SheetRefusal::PartTooShort));
        }
        let refusal = REFUSALS.iter().find(|refusal| refusal.number() == number)?;
        Some(Reason::Call(*refusal))
    }
}

impl fmt::Display for Reason {
    fn fmt<W: fmt::Write>(&self, f: &mut fmt::Formatter<W>) -> fmt::Result {
        let refusal = match *self {
            Reason::Call(refusal) => refusal,
            Reason::Sheet(SheetRefusal::PartTooShort) => return f.write_str(PART_TOO_SHORT),
        };
        f.write_str(match refusal {
            Refusal::TextTooLong => "the text has more than 256 bytes",
            Refusal::PayloadTooLong => "the payload has more than 256 bytes",
            Refusal::ReadingTooLarge => "the reading is above 18446744071709551615 ns",
            Refusal::TooManyParams => "the settings have more than 32 parameters",
            Refusal::RepeatedParam => "an id occurs twice among the settings' parameters",
            Refusal::ReadingBelowLast => "the reading is below the last accepted one",
            Refusal::NotDone => "the result is asked for before Done",
            Refusal::RetriesFull => "the arm would count a nack while retries is 65535",
        })
    }
}
