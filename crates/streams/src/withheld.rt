// What isn't shown of a list, as docs/REPLAY.md says under "What is withheld": the camera's network, and the texts of network replies.
use memchr::{memchr, memmem};
use protocol::Message;
use reading::{Call, names_another};
use words::Bad;

// Stands for what is withheld, whatever that is.
pub const MARK: &str = "(withheld)";

// The last line of a list of which anything was.
pub const NOTE: &str =
    "withheld: ssid, password, their lengths and the texts of network replies; --secrets shows them";

// The answer to a line whose fault would tell something of a text.
pub const FAULT: &str = "bad line: the column and the reason are withheld";

// What is withheld of a line.
#[derive(Clone, Copy)]
pub struct Withheld {
    // what stands from this place on
    pub from: usize,
    // where reading stopped, and why
    pub fault: bool,
}

// The place behind the first of these bytes.
fn behind(line: &[u8], bytes: &[u8]) -> Option<usize> {
    let at = memmem::find(line, bytes)?;
    Some(at.saturating_add(bytes.len()))
}

fn is_network_reply(call: &Call<'_>) -> bool {
    match call {
        Call::Feed(feed) => matches!(feed.message, Message::NetConfigResp),
        _ => false,
    }
}

// The first of two places, where there are any.
fn first(one: Option<usize>, other: Option<usize>) -> Option<usize> {
    match (one, other) {
        (Some(one), Some(other)) => Some(one.min(other)),
        _ => one.or(other),
    }
}

// Of a line that can't be read. What isn't said to be another may be a network reply: with its text before its kind, or a kind that is written wrong.
fn of_bad_line(line: &[u8], kind: Option<usize>, bad: &Bad) -> Option<Withheld> {
    if names_another(line) {
        return Some(Withheld {
            from: kind?,
            fault: true,
        });
    }
    let quote = memchr(b'"', line).map(|at| at.saturating_add(1));
    let text = first(behind(line, b"text="), quote);
    let from = first(kind, text)?;
    Some(Withheld {
        from,
        fault: from <= bad.at,
    })
}

// Of a line that was read so, with no more bytes than are shown.
pub fn of_line(line: &[u8], read: &Result<Option<Call<'_>>, Bad>) -> Option<Withheld> {
    let line = line.strip_suffix(b"\r").unwrap_or(line);
    let kind = behind(line, b"NetConfigResp");
    match read {
        Ok(Some(call)) if !is_network_reply(call) => return None,
        // a comment of which nothing behind the kind is named a text
        Ok(None) if behind(line.get(kind?..)?, b"text=").is_none() => return None,
        Ok(_) => {}
        Err(bad) => return of_bad_line(line, kind, bad),
    }
    Some(Withheld {
        from: kind?,
        fault: false,
    })
}
