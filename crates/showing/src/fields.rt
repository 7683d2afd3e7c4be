// A result or a state, one field a line.
use folding::fold;
use folding::split::{Texts, split_once};
use std::io;
use std::io::Write;

// The kind of a field, by its name.
#[derive(Clone, Copy, PartialEq)]
enum Kind {
    // a reading of the clock, where it is there
    Reading,
    ProdInfo,
    // in the payload of the device info, where there is one
    TagPlace,
    // another that belongs to no record
    Outer,
    // one of the last record before it
    Inner,
}

impl Kind {
    fn of(name: &[u8]) -> Kind {
        match name {
            b"last" | b"deadline" | b"cal_deadline" | b"repoll_at" => Kind::Reading,
            b"prod_info" => Kind::ProdInfo,
            b"tag_place" => Kind::TagPlace,
            b"status" | b"hw_info" | b"dev_info" | b"params" | b"model" | b"mode" => Kind::Outer,
            b"power_mode_unanswered" | b"refused" | b"retries" | b"wait_pi" => Kind::Outer,
            b"factory_cal" | b"if_cal" | b"avr_config" | b"radar_cal" => Kind::Outer,
            b"cam_config" | b"ssid" | b"password" | b"ticks" => Kind::Outer,
            _ => Kind::Inner,
        }
    }
}

// The tag that names a model. A Mevo has none.
fn tag_of(model: &[u8]) -> Option<&'static str> {
    match model {
        b"Xi" => Some("FS Xi"),
        b"Rig" => Some("BAY RIG"),
        _ => None,
    }
}

// The product infos by their number.
const PROD_INFOS: [&[u8]; 3] = [b"prod_info 0", b"prod_info 1", b"prod_info 2"];

// The columns before the name of a field, of one that belongs to a record, and before values.
pub const FIELD: usize = 6;

const INNER: usize = 8;

const VALUE: usize = 30;

// The bytes in a row.
const ROW: usize = 16;

// A reading as it is, and in seconds.
pub fn reading<W: Write>(out: &mut W, now: u64) -> io::Result<()> {
    writeln!(
        out,
        "{now}  {}.{:09} s",
        now / 1_000_000_000,
        now % 1_000_000_000
    )
}

// The reading that a field has.
fn reading_in(name: &[u8], value: &[u8]) -> Option<u64> {
    if Kind::of(name) != Kind::Reading {
        return None;
    }
    std::str::from_utf8(value).ok()?.parse().ok()
}

// A row of bytes. From the second on its text stands below that of the first.
fn row<W: Write>(out: &mut W, digits: &[u8], text: &[u8], width: usize) -> io::Result<()> {
    for pair in digits.chunks(2) {
        out.write_all(pair)?;
        out.write_all(b" ")?;
    }
    fold::blanks(out, width.saturating_sub(text.len()).saturating_mul(3))?;
    out.write_all(b" |")?;
    out.write_all(text)?;
    out.write_all(b"|\n")
}

// Bytes in rows.
fn bytes<W: Write>(out: &mut W, digits: &[u8], text: &[u8]) -> io::Result<()> {
    if text.is_empty() {
        return writeln!(out, "empty");
    }
    for (i, (digits, text)) in digits.chunks(2 * ROW).zip(text.chunks(ROW)).enumerate() {
        if 0 < i {
            fold::blanks(out, VALUE)?;
        }
        row(out, digits, text, if i == 0 { 0 } else { ROW })?;
    }
    Ok(())
}

// A value, from a column on.
fn value<W: Write>(out: &mut W, name: &[u8], value: &[u8], column: usize) -> io::Result<()> {
    if let Some((digits, text)) = split_once(value, b'|') {
        return bytes(out, digits, text.strip_suffix(b"|").unwrap_or(text));
    }
    match reading_in(name, value) {
        Some(now) => reading(out, now),
        None => fold::rest(out, value, column, VALUE),
    }
}

// The name of a field and at least two blanks, up to the column of the values where it can be. Gives the column that comes next.
fn head<W: Write>(out: &mut W, indent: usize, name: &[u8]) -> io::Result<usize> {
    fold::blanks(out, indent)?;
    out.write_all(name)?;
    let end = indent.saturating_add(name.len());
    let column = end.saturating_add(2).max(VALUE);
    fold::blanks(out, column - end)?;
    Ok(column)
}

fn field<W: Write>(out: &mut W, indent: usize, name: &[u8], given: &[u8]) -> io::Result<()> {
    let column = head(out, indent, name)?;
    value(out, name, given, column)
}

// The place of a tag, and behind it the tag.
fn tag_place<W: Write>(
    out: &mut W,
    name: &[u8],
    place: &[u8],
    tag: Option<&str>,
) -> io::Result<()> {
    head(out, FIELD, name)?;
    out.write_all(place)?;
    match tag {
        Some(tag) => writeln!(out, "  \"{tag}\""),
        None => writeln!(out),
    }
}

// The name of a record, on a line of its own.
fn record<W: Write>(out: &mut W, name: &[u8]) -> io::Result<()> {
    fold::blanks(out, FIELD)?;
    out.write_all(name)?;
    writeln!(out)
}

// A word of an answer: `NAME=VALUE`, or `NAME=FIELD=VALUE` where a record begins.
fn word<W: Write>(out: &mut W, name: &[u8], given: &[u8]) -> io::Result<()> {
    let record_begins = given.iter().find(|b| matches!(**b, b'=' | b'|')) == Some(&b'=');
    if record_begins {
        record(out, name)?;
        let (inner, first) = split_once(given, b'=').unwrap_or((given, b""));
        return field(out, INNER, inner, first);
    }
    let indent = match Kind::of(name) {
        Kind::Inner => INNER,
        _ => FIELD,
    };
    field(out, indent, name, given)
}

// The words of a result or a state. The product infos are counted from 0, as the steps are that wait for them. The model stands before the place of
// its tag.
pub fn words<W: Write>(out: &mut W, s: &[u8]) -> io::Result<()> {
    let mut prod_infos = PROD_INFOS.iter();
    let mut tag = None;
    let mut texts = Texts::new();
    for next in s.split(|b| texts.outside(*b) && *b == b' ') {
        let (name, given) = split_once(next, b'=').unwrap_or((next, b""));
        match Kind::of(name) {
            Kind::ProdInfo => field(out, FIELD, prod_infos.next().unwrap_or(&name), given)?,
            Kind::TagPlace => tag_place(out, name, given, tag)?,
            _ => word(out, name, given)?,
        }
        if name == b"model".as_slice() {
            tag = tag_of(given);
        }
    }
    Ok(())
}
