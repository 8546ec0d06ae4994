// Expands start.bin by rules.bin, and prints the answer and the field.
// No heap: it cannot end for want of memory.
#![tactic(auto)]

ghost use Rattle.std.specs.Prelude.{◌≤◌, length, IfSome};

use std::io::{Read, Write};
use std::rt::Files;
use std::{fs, io};

// The most bytes that a program or a field may have.
const MOST: usize = 65536;

// So many bytes of a line are written at once.
const PART: usize = 64;

// Reads until a buffer is full, or the file ends or cannot be read; how many bytes of the buffer are read.
// By hand: the library's read_to_end takes heap, and its copy goes on behind an interrupted read.
fn read_full<R: Read>(file: &mut R, buf: &mut [u8]) -> usize
    ensures { result ≤ length buf.new }
{
    let mut done = 0;
    while done < buf.len() {
        match file.read(&mut buf[done..]) {
            Ok(n) if n > 0 => done += n,
            _ => return done,
        }
    }
    done
}

// How many bytes of a buffer a file fills, as far as it can be opened and read; none where it has more.
// Not one with read_rules' load, which hands each error on: here a read that fails ends the file.
fn load(files: &impl Files, path: &str, buf: &mut [u8]) -> Option<usize>
    ensures { IfSome result (λ n. n ≤ length buf.new) }
{
    let Ok(mut file) = fs::open(files, path) else {
        return Some(0);
    };
    let length = read_full(&mut file, buf);
    let more = read_full(&mut file, &mut [0u8; 1]);
    if more == 0 { Some(length) } else { None }
}

// A part of a line in hex, a space behind each byte, but for the last so many bytes of it.
fn put_part<W: Write>(out: &mut W, part: &[u8], left_out: usize) -> io::Result<()> {
    let mut line = [b' '; 3 * PART];
    let (triples, _) = line.as_chunks_mut::<3>();
    for (b, triple) in part.iter().zip(triples) {
        let [high, low] = hexing::pair(*b);
        *triple = [high, low, b' '];
    }
    let length = 3 * part.len().min(PART);
    out.write_all(&line[..length.saturating_sub(left_out)])
}

// Bytes in hex with single spaces. By hand and in parts: by `hexing::Hex`, a long line takes more than twice as long.
fn hex_line<W: Write>(out: &mut W, bytes: &[u8]) -> io::Result<()> {
    let followed = bytes.len().saturating_sub(1) / PART * PART;
    let (parts, last) = bytes.split_at(followed);
    for part in parts.chunks(PART) {
        put_part(out, part, 0)?;
    }
    if !last.is_empty() {
        put_part(out, last, 1)?;
    }
    out.write_all(b"\n")
}

fn numbers<W: Write>(
    out: &mut W,
    code: u8,
    steps: u32,
    used: usize,
    place: usize,
) -> io::Result<()> {
    writeln!(out, "{code} {steps} {used} {place}")
}

fn expand<W: Write>(
    out: &mut W,
    program: &[u8],
    field: &mut [u8],
    used: usize,
    scratch: &mut [u8],
) -> io::Result<()> {
    let a = machine::run(program, field, used, scratch, 1000000);
    numbers(out, machine::number(a.code), a.steps, a.used, a.place)?;
    hex_line(out, field.get(..a.used).unwrap_or(&[]))
}

fn too_long<W: Write>(out: &mut W) -> io::Result<()> {
    numbers(out, 5, 0, 0, 0)?;
    hex_line(out, b"")
}

fn run<W: Write>(files: &impl Files, out: &mut W) -> io::Result<()> {
    let mut program = [0u8; MOST];
    let mut field = [0u8; MOST];
    let mut scratch = [0u8; MOST];
    let Some(length) = load(files, "rules.bin", &mut program) else {
        return too_long(out);
    };
    let Some(used) = load(files, "start.bin", &mut field) else {
        return too_long(out);
    };
    expand(out, &program[..length], &mut field, used, &mut scratch)
}

fn main(rt: HostRuntime) -> io::Result<()> {
    run(&rt, &mut io::writer(&rt))
}
