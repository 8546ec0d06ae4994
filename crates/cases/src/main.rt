// Runs the case files of data/, and prints what each case gives.
#![tactic(auto)]

ghost use Rattle.std.specs.Prelude.{◌≤◌, length};

use casework::{Case, Hashed};
use checking_fields::FieldFault;
use desk::Record;
use hexing::Hex;
use machine::{Answer, Code};
use std::io::{BufWriter, Read, Write};
use std::{fmt, io};

// Good, or the place where it is bad.
fn found<W: Write>(out: &mut W, checked: Result<(), usize>) -> io::Result<()> {
    match checked {
        Ok(()) => writeln!(out, "good"),
        Err(place) => writeln!(out, "{place}"),
    }
}

fn found_in_field<W: Write>(out: &mut W, field: &[u8], scratch: &mut [u8]) -> io::Result<()> {
    match checking_fields::check_field(field, scratch) {
        Ok(()) => found(out, Ok(())),
        Err(FieldFault::Bad(place)) => found(out, Err(place)),
        Err(FieldFault::Short) => writeln!(out, "short"),
    }
}

// P and a program, or F and a field; none where the file ends.
fn check<R: Read, W: Write>(
    file: &mut R,
    out: &mut W,
    bytes: &mut [u8],
    scratch: &mut [u8],
) -> io::Result<Option<()>> {
    let tag = casework::byte(file);
    let bytes = casework::load(file, bytes);
    match tag {
        Some(b'P') => found(out, checking::check_program(bytes))?,
        Some(b'F') => found_in_field(out, bytes, scratch)?,
        _ => return Ok(None),
    }
    Ok(Some(()))
}

// Puts some parts into a buffer in a row, as far as they fit; how many bytes of it they take.
fn join(buf: &mut [u8], parts: &[&[u8]]) -> usize
    ensures { result ≤ length buf.new }
{
    let room = buf.len();
    let mut rest = buf;
    for part in parts {
        let _ = rest.write_all(part);
    }
    room.saturating_sub(rest.len())
}

// A step of the program whose one sentence is `left = right`, on a call with that argument.
fn step(left: &[u8], right: &[u8], arg: &[u8], field: &mut [u8; 4096]) -> Answer {
    let mut program = [0u8; 1024];
    let mut scratch = [0u8; 4096];
    let sentence = [b"\x0D\x00\x00", left, b"\x0B", right, b"\x0C\x0E\x0F"];
    let length = join(&mut program, &sentence);
    let used = join(field, &[b"\x06\x00\x00", arg, b"\x07"]);
    machine::run(&program[..length], field, used, &mut scratch, 1)
}

// The variable's value, if it stands on the left side: what it gives on the right.
fn value<W: Write>(out: &mut W, left: &[u8], arg: &[u8], kind: u8, number: u8) -> io::Result<()> {
    let mut field = [0u8; 4096];
    let a = step(left, &[kind, number], arg, &mut field);
    if a.code != Code::Done {
        return Ok(());
    }
    let letter = match kind {
        kinds::S_VARIABLE => 's',
        kinds::T_VARIABLE => 't',
        _ => 'e',
    };
    let value = field.get(..a.used).unwrap_or(&[]);
    write!(out, " {letter}{number}={}", Hex::joined(value))
}

// Whether a left side fits an argument, and the values of its variables, by kind and number.
fn fits<W: Write>(out: &mut W, left: &[u8], arg: &[u8]) -> io::Result<()> {
    match step(left, b"", arg, &mut [0u8; 4096]).code {
        Code::Done => write!(out, "yes")?,
        Code::NoMatch => return writeln!(out, "no"),
        _ => return writeln!(out, "no left side, or no argument"),
    }
    for v in 0..kinds::SLOTS as u8 {
        value(out, left, arg, kinds::S_VARIABLE + v / 16, v % 16)?;
    }
    writeln!(out, "")
}

// A left side and an argument; none where the file ends.
fn matching<R: Read, W: Write>(
    file: &mut R,
    out: &mut W,
    left: &mut [u8],
    arg: &mut [u8],
) -> io::Result<Option<()>> {
    let Some(left) = casework::part(file, left) else {
        return Ok(None);
    };
    fits(out, left, casework::load(file, arg))?;
    Ok(Some(()))
}

// The answer, with hashes of the field buffer and the scratch afterwards.
fn run<W: Write>(out: &mut W, case: &mut Case<'_>) -> io::Result<()> {
    let field = &mut *case.field;
    let scratch = &mut *case.scratch;
    let a = machine::run(case.program, field, case.used, scratch, case.last);
    let code = machine::number(a.code);
    let (steps, used, place) = (a.steps, a.used, a.place);
    writeln!(
        out,
        "{code} {steps} {used} {place} {} {}",
        Hashed(field),
        Hashed(scratch)
    )
}

// A part in hex, of a long one its first 16 bytes; a dash where it is empty.
#[derive(Clone, Copy)]
struct Part<'a>(&'a [u8]);

impl fmt::Display for Part<'_> {
    fn fmt<W: fmt::Write>(&self, f: &mut fmt::Formatter<W>) -> fmt::Result {
        if self.0.is_empty() {
            return write!(f, "-");
        }
        match self.0.get(..16) {
            Some(start) if start.len() < self.0.len() => write!(f, "{}+", Hex::joined(start)),
            _ => write!(f, "{}", Hex::joined(self.0)),
        }
    }
}

// The record, hashes of the buffers, and the pointer's part.
fn noted<W: Write>(
    out: &mut W,
    now: Record,
    program: &[u8],
    field: &[u8],
    scratch: &[u8],
) -> io::Result<()> {
    let Record { used, code, place } = now;
    // A record has no steps, and a part depends on none: no conversion, and the one place of a record (embed has plain numbers).
    let answer = Answer {
        code,
        steps: 0,
        used,
        place,
    };
    writeln!(
        out,
        "{used} {} {place} {} {} {}",
        machine::number(code),
        Hashed(field),
        Hashed(scratch),
        Part(desk::pointer(answer, program, field))
    )
}

// So many calls of the desk, from a fresh record.
fn calls<W: Write>(out: &mut W, case: &mut Case<'_>) -> io::Result<()> {
    let field = &mut *case.field;
    let scratch = &mut *case.scratch;
    let mut now = desk::fresh(case.used);
    for _ in 0..case.last {
        desk::desk(&mut now, case.program, field, scratch);
        noted(out, now, case.program, field, scratch)?;
    }
    Ok(())
}

// Reads a program, a field and a scratch, and runs them; none where there is no more.
fn start<R: Read, F: FnOnce(&mut Case<'_>) -> io::Result<()>>(
    file: &mut R,
    program: &mut [u8],
    field: &mut [u8],
    scratch: &mut [u8],
    run: F,
) -> io::Result<Option<()>>
    requires { F.IsAlwaysCallable run }
{
    let Some(mut case) = casework::next_case(file, program, field, scratch) else {
        return Ok(None);
    };
    run(&mut case)?;
    Ok(Some(()))
}

fn main(rt: HostRuntime) -> io::Result<()> {
    let mut out = BufWriter::new(rt.alloc(), io::writer(&rt))?;
    // Buffers of a fixed length: what machine and desk take is a buffer, of which a case has a part, and a used length.
    let mut program = [0u8; 65600];
    let mut field = [0u8; 65600];
    let mut scratch = [0u8; 65600];
    casework::each_case(&rt, "checks", |file| {
        check(file, &mut out, &mut program, &mut scratch)
    })?;
    casework::each_case(&rt, "matching", |file| {
        matching(file, &mut out, &mut program, &mut field)
    })?;
    casework::each_case(&rt, "machine", |file| {
        start(file, &mut program, &mut field, &mut scratch, |case| {
            run(&mut out, case)
        })
    })?;
    casework::each_case(&rt, "desk", |file| {
        start(file, &mut program, &mut field, &mut scratch, |case| {
            calls(&mut out, case)
        })
    })?;
    out.flush()
}
