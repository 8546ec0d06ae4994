// Reads the texts of data/, and prints what each of them gives.
#![tactic(auto)]

use casework::Hashed;
use std::io;
use std::io::{BufWriter, Read, Write};

// A text, and two buffers for its program and its list.
#[derive(Drop)]
struct Case<'a> {
    text: &'a [u8],
    program: &'a mut [u8],
    list: &'a mut [u8],
}

// A text, and both buffers by their lengths, filled so that a byte which reading leaves as it is shows; none where the file ends, or where
// one does not fit.
fn next_case<'a, R: Read>(
    file: &mut R,
    text: &'a mut [u8],
    program: &'a mut [u8],
    list: &'a mut [u8],
) -> Option<Case<'a>> {
    let text = casework::part(file, text)?;
    let n = casework::number(file).unwrap_or(0) as usize;
    let program = program.get_mut(..n)?;
    let n = casework::number(file).unwrap_or(0) as usize;
    let list = list.get_mut(..n)?;
    let byte = casework::byte(file).unwrap_or(0);
    program.fill(byte);
    list.fill(byte);
    Some(Case {
        text,
        program,
        list,
    })
}

// The answer, with hashes of the program buffer and the list buffer afterwards.
fn read<W: Write>(out: &mut W, case: Case<'_>) -> io::Result<()> {
    let Case {
        text,
        program,
        list,
    } = case;
    let a = reading::read(text, program, list);
    let code = reading::number(a.code);
    writeln!(
        out,
        "{code} {} {} {} {} {}",
        a.program,
        a.names,
        a.place,
        Hashed(program),
        Hashed(list)
    )
}

fn main(rt: HostRuntime) -> io::Result<()> {
    let mut out = BufWriter::new(rt.alloc(), io::writer(&rt))?;
    // Buffers of a fixed length, of which a case has a part: what reading takes is a buffer, and it answers the used length.
    let mut text = [0u8; 65600];
    let mut program = [0u8; 65600];
    let mut list = [0u8; 65600];
    casework::each_case(&rt, "texts", |file| {
        let Some(case) = next_case(file, &mut text, &mut program, &mut list) else {
            return Ok(None);
        };
        read(&mut out, case)?;
        Ok(Some(()))
    })?;
    out.flush()
}
