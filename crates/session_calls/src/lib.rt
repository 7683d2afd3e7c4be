// The calls of a session, and what they answer. What its sequences store is written as where one of them runs alone.
#![tactic(auto)]

mod steps;

use protocol::{Action, Refusal};
use reading::{Calls, Feed};
use session::{Session, SessionAnswer, SessionSync};
use sheet::{SheetRefusal, StartUp};
use std::io;
use std::io::Write;
use steps::Steps;
use streams::answers::Text;
use streams::running::{FEED_ALONE, Sequence};
use writing::send;

#[derive(Clone, Copy)]
pub struct SessionCalls {
    session: Session,
}

// What is sent, in the order of sending. The steps go behind it.
fn sent<W: Write>(out: &mut W, outcome: &Result<[Option<Action>; 2], Refusal>) -> io::Result<()> {
    let [first, second] = outcome.unwrap_or([None, None]);
    send::send(out, &first.or(second))?;
    if first.is_some() && second.is_some() {
        write!(out, "; ")?;
        send::send(out, &second)?;
    }
    write!(out, "; ")
}

// What a sequence that may have begun stores or has come to, as `write` writes it.
fn optional<T, F: FnOnce(&mut Text, &T) -> io::Result<()>>(
    out: &mut Text,
    part: &Option<T>,
    write: F,
) -> io::Result<()>
    requires { F.IsAlwaysCallable write }
{
    match part {
        Some(part) => write(out, part),
        None => out.write_all(b" none"),
    }
}

// The fields of a result, those of each sequence behind its letter.
fn sync(out: &mut Text, s: &SessionSync) -> io::Result<()> {
    write!(out, " D")?;
    dsp_calls::stored::sync(out, &s.dsp)?;
    write!(out, "; A")?;
    avr_calls::stored::sync(out, &s.avr)?;
    write!(out, "; P")?;
    optional(out, &s.pi, pi_calls::stored::sync)
}

impl SessionCalls {
    // A session that begins.
    #[inline(never)]
    pub fn begin(out: &mut Text) -> io::Result<SessionCalls> {
        let begun = Session::new();
        sent(out, &begun.outcome)?;
        write!(out, "{}", Steps::of(&begun.session))?;
        Ok(SessionCalls {
            session: begun.session,
        })
    }

    // Goes on with what came of a call, and writes it.
    fn go_on(&mut self, fed: &SessionAnswer, out: &mut Text) -> io::Result<()> {
        let before = Steps::of(&self.session);
        let after = Steps::of(&fed.session);
        self.session = fed.session;
        send::outcome(out, &fed.outcome)?;
        write!(out, "; ")?;
        after.ticked(before, out)?;
        sent(out, &fed.outcome)?;
        write!(out, "{after}")
    }
}

impl Sequence for SessionCalls {
    const CALLS: Option<Calls> = Some(Calls {
        check: true,
        result: true,
        take: true,
        sheet_of: true,
        ..FEED_ALONE
    });

    #[inline(never)]
    fn feed(&mut self, feed: &Feed<'_>, out: &mut Text) -> io::Result<()> {
        let fed = self.session.feed(
            feed.src,
            feed.type_id,
            feed.message,
            feed.params,
            feed.text,
            feed.payload,
            feed.now,
            feed.wall,
        );
        self.go_on(&fed, out)
    }

    #[inline(never)]
    fn check(&mut self, now: u64, out: &mut Text) -> io::Result<()> {
        let fed = self.session.check(now);
        self.go_on(&fed, out)
    }

    #[inline(never)]
    fn result(&self, out: &mut Text) -> io::Result<()> {
        send::result(out, &self.session.into_result(), sync)
    }

    #[inline(never)]
    fn take(&mut self, out: &mut Text) -> io::Result<()> {
        let taken = self.session.take_refused();
        self.session = taken.session;
        dsp_calls::stored::taken(out, &taken.refused)
    }

    fn sheet_of(
        &self,
        start_up: StartUp,
        buf: &mut [u8],
        at: usize,
    ) -> Result<usize, SheetRefusal> {
        self.session.sheet(start_up, buf, at)
    }

    #[inline(never)]
    fn state(&self, out: &mut Text) -> io::Result<()> {
        write!(out, " D")?;
        dsp_calls::stored::state(out, &self.session.dsp)?;
        write!(out, "; A")?;
        optional(out, &self.session.avr, avr_calls::stored::state)?;
        write!(out, "; P")?;
        optional(out, &self.session.pi, pi_calls::stored::state)
    }
}
