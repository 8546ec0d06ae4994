// A place of a text pointed out, as compilers do.
ghost use Rattle.std.specs.Prelude.{◌≤◌, length};

use crate::wording;
use std::io;
use std::io::Write;

// The most bytes of a line that are shown.
const WIDTH: usize = 120;

// The line that a place is on: its number from 1, its bytes, and how many of them stand before the place.
#[derive(Clone, Copy)]
struct Line<'a> {
    number: usize,
    bytes: &'a [u8],
    before: usize,
}

// Whether a line begins at a place: at the start of the text, after an LF, or after a CR to which no LF belongs.
fn begins(text: &[u8], at: usize) -> bool
    requires { at ≤ length text.now }
{
    let (before, behind) = text.split_at(at);
    match before.last() {
        None | Some(b'\n') => true,
        Some(b'\r') => behind.first() != Some(&b'\n'),
        Some(_) => false,
    }
}

fn line_of(text: &[u8], place: usize) -> Line<'_>
    requires { place ≤ length text.now }
    ensures before_in_bounds { result.before ≤ length result.bytes.now }
    ensures place_bound { result.before ≤ place }
{
    // By hand: of what `filter` and `last` or `rfind` give, no proof was found that it lies within the range.
    let mut number: usize = 1;
    let mut start: usize = 0;
    for at in 1..place + 1 {
        if begins(text, at) {
            number += 1;
            start = at;
        }
    }
    let end = text[place..]
        .iter()
        .position(|b| *b == b'\n' || *b == b'\r');
    let end = end.map_or(text.len(), |behind| place + behind);
    Line {
        number,
        bytes: &text[start..end],
        before: place - start,
    }
}

// A byte as a terminal may safely have it, one column wide.
fn shown(b: u8) -> u8 {
    match b {
        b'\t' | b' '..=b'~' => b,
        _ => b'?',
    }
}

// Room for a byte. Tabs stay, so that the caret stands right.
fn room(b: u8) -> u8 {
    if b == b'\t' { b } else { b' ' }
}

// A part of a line, in one write.
fn draw<W: Write, F: Fn(u8) -> u8>(out: &mut W, bytes: &[u8], drawn: F) -> io::Result<()>
    requires { F.IsAlwaysCallable drawn }
{
    let mut line = [0u8; WIDTH];
    for (b, to) in bytes.iter().zip(&mut line) {
        *to = drawn(*b);
    }
    out.write_all(&line[..bytes.len().min(WIDTH)])
}

// The line of a place, and a caret below it; a long line is cut around the place.
fn show<W: Write>(out: &mut W, line: Line<'_>) -> io::Result<()>
    requires { line.before ≤ length line.bytes.now }
{
    let (before, behind) = line.bytes.split_at(line.before);
    let left = before
        .len()
        .min(WIDTH.saturating_sub(behind.len()).max(WIDTH / 2));
    let right = behind.len().min(WIDTH - left);
    let from = before.len() - left;
    draw(out, &line.bytes[from..line.before + right], shown)?;
    writeln!(out, "")?;
    draw(out, &before[from..], room)?;
    writeln!(out, "^")
}

// The file, line and column of a place, what is wrong there, and the line.
pub fn point_out<W: Write>(out: &mut W, file: &str, text: &[u8], place: usize) -> io::Result<()>
    requires { place ≤ length text.now }
{
    let line = line_of(text, place);
    let number = line.number;
    let column = line.before + 1;
    write!(
        out,
        "{file}:{number}:{column}: {}",
        wording::wrong(text, place)
    )?;
    show(out, line)
}
