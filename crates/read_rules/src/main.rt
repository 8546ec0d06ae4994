// Reads rules.ref, and writes its program to rules.bin and its name list to names.bin; a bad place is pointed out.
// What fails is told by a line on standard error, and by no numbers.
#![tactic(auto)]

mod failing;
mod pointing;
mod storing;
mod wording;

ghost use Rattle.std.specs.Prelude.{◌≡◌, ◌≤◌, length, IfOk};
ghost use Rattle.reading.specs.Answers.{code_of};

use failing::{Failure, failed};
use reading::{Answer, Code};
use std::io::{Read, Write};
use std::rt::Files;
use std::{fs, io};

// Reads until a buffer is full, or the file ends; how many bytes of the buffer are read. By hand: the library's read_to_end takes heap.
fn read_full<R: Read>(file: &mut R, buf: &mut [u8]) -> io::Result<usize>
    ensures { IfOk result (λ n. n ≤ length buf.new) }
{
    let mut done = 0;
    while done < buf.len() {
        let n = file.read(&mut buf[done..])?;
        if n == 0 {
            break;
        }
        done += n;
    }
    Ok(done)
}

// Reads a file to its end, or until the buffer is full.
// Not one with expand's load, which takes what was read where a read fails: here the error is told.
fn load(files: &impl Files, path: &str, buf: &mut [u8]) -> io::Result<usize>
    ensures { IfOk result (λ n. n ≤ length buf.new) }
{
    let mut file = fs::open(files, path)?;
    read_full(&mut file, buf)
}

// Reading, with what its answer means for a caller: program and list lie within their buffers, and a bad place in a text that is not too long.
fn read_into(text: &[u8], program: &mut [u8], list: &mut [u8]) -> Answer
    ensures program_in_bounds { (result.program ≤ length program.new) × (result.names ≤ length list.new) }
    ensures place_in_bounds { (result.place ≤ length text.now) × (code_of result.code ≡ 8 → length text.now ≤ 65536) }
{
    reading::read(text, program, list)
}

// The numbers after files that are there, so that nobody takes old files for new ones. The text's buffer has a byte more than a text may
// have, so that reading itself refuses a longer one.
fn read<R: Files + AllocGlobal, W: Write>(rt: &R, out: &mut W) -> Result<(), Failure> {
    let mut text = [0u8; 65537];
    let mut program = [0u8; 65536];
    let mut list = [0u8; 65536];
    let length = load(rt, "rules.ref", &mut text).map_err(|e| failed("rules.ref", e))?;
    let text = &text[..length];
    let a = read_into(text, &mut program, &mut list);
    if let Code::Read = a.code {
        storing::store(rt, &program[..a.program], &list[..a.names])?;
    }
    let code = reading::number(a.code);
    writeln!(out, "{code} {} {} {}", a.program, a.names, a.place)?;
    match a.code {
        Code::Read => {}
        Code::NoRoom => writeln!(
            out,
            "the program or the name list would be longer than 65,536 bytes"
        )?,
        Code::BadSizes => writeln!(out, "rules.ref is longer than 65,536 bytes")?,
        Code::BadText => pointing::point_out(out, "rules.ref", text, a.place)?,
    }
    Ok(())
}

fn main(rt: HostRuntime) -> io::Result<()> {
    match read(&rt, &mut io::writer(&rt)) {
        Ok(()) => Ok(()),
        Err(Failure::File { what, error }) => failing::tell(&rt, what, error),
        Err(Failure::Output(error)) => Err(error),
    }
}
