// What the sequences have in common: what a call answers, which calls are accepted, and deadlines.
#![tactic(auto)]

ghost use Rattle.std.specs.Prelude.{◌≡◌, Ok};
ghost use Rattle.protocol.specs.Refusals.{outcome, lowest};
ghost use Rattle.sequence.specs.Accepted.{bytes_refusals, feed_refusals, check_refusals};
ghost use Rattle.sequence.specs.Lowest.{Theorem};
ghost use Rattle.sequence.specs.Rows.{deadline_at, idle, or_after, reached, refused};

use protocol::{Action, Refusal};

// The largest text or payload, in bytes.
const MAX_LEN: usize = 256;

// The largest clock reading, in nanoseconds: any wait added to it fits in 64 bits.
const MAX_READING: u64 = 18_446_744_071_709_551_615;

// What an accepted feed or check does to a state: what is sent, if anything, the state then, and whether an entry was ticked.
#[derive(Clone, Copy)]
pub struct Moved<S> {
    pub action: Option<Action>,
    pub state: S,
    pub ticked: bool,
}

impl<S> Moved<S> {
    // Nothing is sent, and no entry is ticked.
    pub fn idle(state: S) -> Moved<S>
        ensures { result ≡ idle state }
    {
        Moved {
            action: None,
            state,
            ticked: false,
        }
    }
}

// What a call answers: what is sent, if anything, or why it is refused; and the sequencer.
#[derive(Clone, Copy)]
pub struct Answer<S> {
    pub outcome: Result<Option<Action>, Refusal>,
    pub seq: S,
}

impl<S> Answer<S> {
    pub fn accepted(action: Option<Action>, seq: S) -> Answer<S>
        ensures { result ≡ record { outcome = Ok action; seq = seq } }
    {
        Answer {
            outcome: Ok(action),
            seq,
        }
    }

    // Nothing is sent, and the sequencer is as it was.
    pub fn refused(refusal: Refusal, seq: S) -> Answer<S>
        ensures { result ≡ refused seq refusal }
    {
        Answer {
            outcome: Err(refusal),
            seq,
        }
    }
}

// ---- deadlines

// `wait` nanoseconds after `now`; none where that doesn't fit.
pub fn after(now: u64, wait: u64) -> Option<u64>
    ensures { result ≡ deadline_at now wait }
{
    now.checked_add(wait)
}

// The deadline itself, or `wait` nanoseconds after `now` where there is none.
pub fn or_after(deadline: Option<u64>, now: u64, wait: u64) -> Option<u64>
    ensures { result ≡ or_after deadline now wait }
{
    deadline.or(after(now, wait))
}

// Whether the clock is at it or past it.
pub fn reached(deadline: Option<u64>, now: u64) -> bool
    ensures { result ≡ reached deadline now }
{
    match deadline {
        Some(at) => at <= now,
        None => false,
    }
}

// ---- which calls are accepted

// A feed of a sequence without a clock.
pub fn accept_bytes(text: &[u8], payload: &[u8]) -> Result<(), Refusal>
    ensures { result ≡ outcome (lowest (bytes_refusals text.now payload.now)) }
{
    if MAX_LEN < text.len() {
        return Err(Refusal::TextTooLong);
    }
    if MAX_LEN < payload.len() {
        return Err(Refusal::PayloadTooLong);
    }
    Ok(())
}

// A feed, `last` being the last accepted reading.
pub fn accept_feed(text: &[u8], payload: &[u8], last: u64, now: u64) -> Result<(), Refusal>
    ensures { result ≡ outcome (lowest (feed_refusals text.now payload.now last now)) }
{
    accept_bytes(text, payload)?;
    accept_check(last, now)
}

// A check.
pub fn accept_check(last: u64, now: u64) -> Result<(), Refusal>
    ensures { result ≡ outcome (lowest (check_refusals last now)) }
{
    if MAX_READING < now {
        return Err(Refusal::ReadingTooLarge);
    }
    if now < last {
        return Err(Refusal::ReadingBelowLast);
    }
    Ok(())
}

/// Of the numbers that apply to a feed, a check or an asking the lowest is given, and none where none applies.
pub fn lowest_number()
    ensures { Theorem }
{}
