// Lines of at most 100 columns. What is longer is folded: it goes on in further lines, which are indented.
ghost use Rattle.std.specs.Prelude.{◌≡◌, count_by};
ghost use Rattle.folding.specs.Columns.{takes_column};

use std::io;
use std::io::Write;
use writing::write;

pub const WIDTH: usize = 100;

// A character of several bytes takes the one column of its first byte.
fn takes_column(b: u8) -> bool
    ensures { result ≡ takes_column b }
{
    !matches!(b, 0x80..=0xBF)
}

// As a line's reader has it, which stands in another crate than what is laid out.
fn is_blank(b: u8) -> bool {
    matches!(b, b' ' | b'\t')
}

// A tab as a blank, and any other control byte as a dot.
fn visible(b: u8) -> u8 {
    match b {
        b'\t' => b' ',
        0x00..=0x1F | 0x7F => b'.',
        _ => b,
    }
}

// The columns that bytes take.
pub fn columns(s: &[u8]) -> usize
    ensures { result ≡ count_by takes_column s.now }
{
    s.iter().filter(|b| takes_column(**b)).count()
}

pub fn blanks<W: Write>(out: &mut W, n: usize) -> io::Result<()> {
    write!(out, "{:n$}", "")
}

fn shown<W: Write>(out: &mut W, s: &[u8]) -> io::Result<()> {
    write::each(out, s, visible)
}

// The bytes that fit into so many columns, and what is left. They are parted at the last blank, which is left out, or behind the last comma.
fn parted(s: &[u8], width: usize) -> (&[u8], &[u8]) {
    let mut columns = s.iter().enumerate().filter(|(_, b)| takes_column(**b));
    let Some((over, _)) = columns.nth(width) else {
        return (s, &[]);
    };
    let ends = |pair: &[u8]| matches!(pair, [b',', _] | [_, b' ' | b'\t']);
    match s[..=over].windows(2).rposition(ends) {
        Some(before) if is_blank(s[before + 1]) => (&s[..before + 1], &s[before + 2..]),
        Some(before) => s.split_at(before + 1),
        None => s.split_at(over),
    }
}

// The columns from this one on, counted from 0.
fn width_from(column: usize) -> usize {
    WIDTH.saturating_sub(column).max(1)
}

// Writes bytes from a column on, counted from 0, and a line feed. What doesn't fit goes on from the column `hang` on.
pub fn rest<W: Write>(out: &mut W, s: &[u8], column: usize, hang: usize) -> io::Result<()> {
    let (first, mut left) = parted(s, width_from(column));
    shown(out, first)?;
    // Each further piece takes a byte or more, so these turns are enough. A `while` would need a proof file that says so.
    for _ in 0..s.len() {
        if left.is_empty() {
            break;
        }
        let (next, further) = parted(left, width_from(hang));
        write!(out, "\n{:hang$}", "")?;
        shown(out, next)?;
        left = further;
    }
    writeln!(out)
}
