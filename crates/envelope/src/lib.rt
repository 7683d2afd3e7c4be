// A decoded envelope that refers to the lent bytes (src/conn.rs's Envelope without `raw`), and each sequence's feed with one. A function here
// takes it apart and calls the sequence's own feed. Each is proved from that feed's contract, without a proof file. One for each sequence: a
// generic one would call through a trait, whose six impls would be these bodies again.
#![tactic(auto)]

ghost use Rattle.std.specs.Prelude.{◌≡◌};
ghost use Rattle.disarm.specs.Answers as disarms;
ghost use Rattle.arm.specs.Answers as arms;
ghost use Rattle.avr_config.specs.Answers as configs;
ghost use Rattle.pi.specs.Answers as pis;
ghost use Rattle.dsp.specs.Answers as dsps;
ghost use Rattle.avr.specs.Answers as avrs;
ghost use Rattle.envelope.specs.Lent.{lent};

use arm::ArmSequencer;
use avr::AvrSequencer;
use avr_config::AvrConfigSequencer;
use disarm::DisarmSequencer;
use dsp::DspSequencer;
use pi::PiSequencer;
use protocol::{BusAddr, Message};
use sequence::Answer;

#[derive(Clone, Copy)]
pub struct Envelope<'a> {
    pub src: BusAddr,
    pub type_id: u8,
    pub message: Message,
    pub params: [i16; 34],
    pub text: &'a [u8],
    pub payload: &'a [u8],
}

pub fn disarm(disarm: DisarmSequencer, env: Envelope) -> Answer<DisarmSequencer>
    ensures { result ≡ disarms.fed_to disarm (lent env.entry) }
{
    disarm.feed(env.src, env.type_id, env.message, env.text, env.payload)
}

pub fn arm(arm: ArmSequencer, env: Envelope) -> Answer<ArmSequencer>
    ensures { result ≡ arms.fed_to arm (lent env.entry) }
{
    arm.feed(env.src, env.type_id, env.message, env.text, env.payload)
}

pub fn avr_config(run: AvrConfigSequencer, env: Envelope) -> Answer<AvrConfigSequencer>
    ensures { result ≡ configs.fed_to run (lent env.entry) }
{
    run.feed(env.src, env.type_id, env.message, env.text, env.payload)
}

pub fn pi(pi: PiSequencer, env: Envelope) -> Answer<PiSequencer>
    ensures { result ≡ pis.fed_to pi (lent env.entry) }
{
    pi.feed(env.src, env.type_id, env.message, env.text, env.payload)
}

pub fn dsp(dsp: DspSequencer, env: Envelope, now: u64) -> Answer<DspSequencer>
    ensures { result ≡ dsps.fed_to dsp (lent env.entry) now }
{
    dsp.feed(
        env.src,
        env.type_id,
        env.message,
        env.params,
        env.text,
        env.payload,
        now,
    )
}

pub fn avr(avr: AvrSequencer, env: Envelope, now: u64, wall: u64) -> Answer<AvrSequencer>
    ensures { result ≡ avrs.fed_to avr (record { envelope = lent env.entry; wall = wall }) now }
{
    avr.feed(
        env.src,
        env.type_id,
        env.message,
        env.params,
        env.text,
        env.payload,
        now,
        wall,
    )
}
