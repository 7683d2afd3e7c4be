// The answer to a call for a sheet.
use crate::answers::Text;
use crate::running::Sequence;
use reading::{SHEET_BUFFER, SheetBuffer};
use sheet::StartUp;
use std::io;
use writing::sheets;

// The bytes that are lent where the call names no buffer: the longest sheet, of an AVR, has 327.
const ROOM: usize = 512;

// Each byte that is lent is a full stop before, so that what is left of them shows what was written. Of a buffer that the call names all is
// told, and else the sheet alone.
#[inline(never)]
pub fn answer<S: Sequence>(
    running: &S,
    start_up: Option<StartUp>,
    named: Option<SheetBuffer>,
    out: &mut Text,
) -> io::Result<()> {
    let mut bytes = [b'.'; SHEET_BUFFER];
    let SheetBuffer { at, len } = named.unwrap_or(SheetBuffer { at: 0, len: ROOM });
    let buf = &mut bytes[..len.min(SHEET_BUFFER)];
    let written = match start_up {
        Some(start_up) => running.sheet_of(start_up, buf, at as usize),
        None => running.sheet(buf, at as usize),
    };
    sheets::outcome(out, &written)?;
    if named.is_some() {
        return sheets::text(out, "buffer", buf);
    }
    sheets::text(out, "sheet", &buf[..written.unwrap_or(0).min(buf.len())])
}
