// Lists of calls: reads one and writes what each call answers, as docs/REPLAY.md says. The programs `replay` and `trials` are a few
// lines over it.
#![tactic(auto)]

use arm_calls::ArmCalls;
use avr_calls::AvrCalls;
use avr_config_calls::AvrConfigCalls;
use device::model::DeviceModel;
use disarm_calls::DisarmCalls;
use dsp_calls::DspCalls;
use pi_calls::PiCalls;
use reading::Sequence;
use session_calls::SessionCalls;
use std::alloc::Global;
use std::io::{Read, Write};
use streams::answers::Form;
use streams::running::{NotBegun, begin, run};
use streams::{Failure, List};

// Each begins a sequence of a type of its own, and answers its calls, up to that which begins the next one, or the end of the list. Not in one
// function, nor inlined: a function sets all that its locals take to 0 when it is entered, and one would do so for the states of all seven.
#[inline(never)]
fn dsp<R: Read + Drop, W: Write + Drop>(
    list: &mut List<R, W>,
) -> Result<Option<Sequence>, Failure> {
    let dsp = DspCalls::begin(&mut list.answers.answer)?;
    begin(dsp, list)
}

#[inline(never)]
fn avr<R: Read + Drop, W: Write + Drop>(
    model: Option<DeviceModel>,
    list: &mut List<R, W>,
) -> Result<Option<Sequence>, Failure> {
    let avr = AvrCalls::begin(model, &mut list.answers.answer)?;
    begin(avr, list)
}

#[inline(never)]
fn pi<R: Read + Drop, W: Write + Drop>(list: &mut List<R, W>) -> Result<Option<Sequence>, Failure> {
    let pi = PiCalls::begin(&mut list.answers.answer)?;
    begin(pi, list)
}

#[inline(never)]
fn settings_run<R: Read + Drop, W: Write + Drop>(
    list: &mut List<R, W>,
) -> Result<Option<Sequence>, Failure> {
    let settings_run = AvrConfigCalls::begin(&list.lent.settings, &mut list.answers.answer)?;
    begin(settings_run, list)
}

#[inline(never)]
fn disarm<R: Read + Drop, W: Write + Drop>(
    list: &mut List<R, W>,
) -> Result<Option<Sequence>, Failure> {
    let disarm = DisarmCalls::begin(&mut list.answers.answer)?;
    begin(disarm, list)
}

#[inline(never)]
fn arm<R: Read + Drop, W: Write + Drop>(
    model: Option<DeviceModel>,
    list: &mut List<R, W>,
) -> Result<Option<Sequence>, Failure> {
    let arm = ArmCalls::begin(model, &mut list.answers.answer)?;
    begin(arm, list)
}

#[inline(never)]
fn session<R: Read + Drop, W: Write + Drop>(
    list: &mut List<R, W>,
) -> Result<Option<Sequence>, Failure> {
    let session = SessionCalls::begin(&mut list.answers.answer)?;
    begin(session, list)
}

// The same of whichever sequence begins.
fn answer<R: Read + Drop, W: Write + Drop>(
    sequence: Sequence,
    list: &mut List<R, W>,
) -> Result<Option<Sequence>, Failure> {
    match sequence {
        Sequence::Dsp => dsp(list),
        Sequence::Avr(model) => avr(model, list),
        Sequence::Pi => pi(list),
        Sequence::AvrConfig => settings_run(list),
        Sequence::Disarm => disarm(list),
        Sequence::Arm(model) => arm(model, list),
        Sequence::Session => session(list),
    }
}

// Answers a whole list, and how many of its lines could not be read.
pub fn replay<R: Read + Drop, W: Write + Drop>(
    alloc: Global,
    input: R,
    output: W,
    form: Form,
) -> Result<u64, Failure> {
    let mut list = List::new(alloc, input, output, form)?;
    let mut next = run(NotBegun, &mut list)?;
    // The sequences are counted down, as reads are.
    for _ in 0..u64::MAX {
        let Some(sequence) = next else {
            break;
        };
        next = answer(sequence, &mut list)?;
    }
    list.finish()
}

#[cfg(test)]
mod tests {
    use super::*;
    use std::vec::Vec;

    // All that a list needs can be had, and it is answered to its end; the answers are the Rust's.
    #[test]
    fn answers_a_list(rt: HostRuntime) {
        let list =
            b"disarm\nfeed 1000000000 Avr 0x95 ConfigAck bus_addr=0x30 acked_cmd=0x30\nno call\n";
        let mut written = Vec::new(rt.alloc());
        let form = Form {
            shown: false,
            secrets: false,
            with_state: false,
        };
        let bad_lines = replay(rt.alloc(), list.as_slice(), &mut written, form);
        assert!(rt; matches!(bad_lines, Ok(1)));
        assert!(rt;
            written.as_slice()
                == b"1: send Avr AvrConfigCmd arm=false; WaitAck\n2: accepted; ticked 1; no send; WaitModeReset\n3: bad line at column 1: unknown call: docs/REPLAY.md names them all\n".as_slice()
        );
    }
}
