// What the case programs share: the cases of a file, the parts of a case, and the hash of what a case leaves behind.
#![tactic(auto)]

ghost use Rattle.std.specs.Prelude.{◌≡◌, ◌⊎◌, [], ◌≤◌, length, Some, IfSome};
ghost use Rattle.casework.specs.Hash.{hash_of};
ghost use Rattle.casework.specs.Printed.{word_of};
ghost use Rattle.casework.specs.Words.{IsNext, IsByte, IsPart};
ghost use Rattle.std.specs.Io.KnownBytes.{Consumes};

use hexing::Hex;
use std::fs::File;
use std::io::{BufReader, Read};
use std::rt::Files;
use std::{fmt, fs, io};

#[cfg(test)]
mod tests;

// Every case of a file, up to 100000 of them; where there is no such file, none. `case` gives none where there is no more.
pub fn each_case<
    R: Files<File = File> + AllocGlobal,
    F: FnMut(&mut BufReader<File>) -> io::Result<Option<()>>,
>(rt: &R, path: &str, mut case: F) -> io::Result<()>
    requires { F.IsAlwaysCallable case }
{
    let Ok(file) = fs::open(rt, path) else {
        return Ok(());
    };
    let mut file = BufReader::new(rt.alloc(), file)?;
    for _ in 0..100000 {
        if case(&mut file)?.is_none() {
            break;
        }
    }
    Ok(())
}

// The next N bytes; none where the file ends.
fn next<const N: usize, R: Read>(file: &mut R) -> Option<[u8; N]>
    ensures { IfSome result (λ b. Consumes (R.remaining file.old) (R.remaining file.new) b) }
{
    let mut b = [0u8; N];
    file.read_exact(&mut b).ok()?;
    Some(b)
}

// A number of four bytes, the low byte first; none where the file ends.
pub fn number<R: Read>(file: &mut R) -> Option<u32>
    ensures { IsNext (R.remaining file.old) (R.remaining file.new) result }
{
    let b = next::<4, R>(file)?;
    Some(u32::from_le_bytes(b))
}

// A byte; none where the file ends.
pub fn byte<R: Read>(file: &mut R) -> Option<u8>
    ensures { IsByte (R.remaining file.old) (R.remaining file.new) result }
{
    let b = next::<1, R>(file)?;
    Some(b[0])
}

// A length, and the start of a buffer with that many bytes, as far as the file has them; none where it does not fit.
pub fn part<'a, R: Read>(file: &mut R, buf: &'a mut [u8]) -> Option<&'a mut [u8]>
    ensures long { IfSome result (λ part. IsPart (R.remaining file.old) part.now) }
    ensures in_bounds { IfSome result (λ part. length part.now ≤ length buf.old) }
{
    let n = number(file)? as usize;
    let part = buf.get_mut(..n)?;
    let _ = file.read_exact(part);
    Some(part)
}

// The same, but empty where there is none.
pub fn load<'a, R: Read>(file: &mut R, buf: &'a mut [u8]) -> &'a mut [u8]
    ensures long { (result.now ≡ []) ⊎ IsPart (R.remaining file.old) result.now }
    ensures in_bounds { length result.now ≤ length buf.old }
{
    part(file, buf).unwrap_or(&mut [])
}

// A case of a run: the buffers, how much of the field is used, and the number at its end.
#[derive(Drop)]
pub struct Case<'a> {
    pub program: &'a [u8],
    pub field: &'a mut [u8],
    pub used: usize,
    pub scratch: &'a mut [u8],
    pub last: u32,
}

// Reads the next case into three buffers; there is none where the file ends, or where the program or the scratch does not fit.
pub fn next_case<'a, R: Read>(
    file: &mut R,
    program: &'a mut [u8],
    field: &'a mut [u8],
    scratch: &'a mut [u8],
) -> Option<Case<'a>>
    ensures program_long { IfSome result (λ c. IsPart (R.remaining file.old) c.program.now) }
    ensures program_in_bounds { IfSome result (λ c. length c.program.now ≤ length program.old) }
    ensures field_in_bounds { IfSome result (λ c. length c.field.now ≤ length field.old) }
    ensures scratch_in_bounds { IfSome result (λ c. length c.scratch.now ≤ length scratch.old) }
{
    let program = part(file, program)?;
    let field = load(file, field);
    let used = number(file).unwrap_or(0) as usize;
    let n = number(file).unwrap_or(0) as usize;
    let scratch = scratch.get_mut(..n)?;
    scratch.fill(byte(file).unwrap_or(0));
    let last = number(file).unwrap_or(0);
    Some(Case {
        program,
        field,
        used,
        scratch,
        last,
    })
}

// The hash FNV-1a of some bytes.
pub fn hash(s: &[u8]) -> u32
    ensures { result ≡ hash_of s.now }
{
    let mut h: u32 = 2166136261;
    for b in s {
        h = (h ^ u32::from(*b)).wrapping_mul(16777619);
    }
    h
}

// Some bytes, printed as their hash.
#[derive(Clone, Copy)]
pub struct Hashed<'a>(pub &'a [u8]);

impl fmt::Display for Hashed<'_> {
    ghost output = { λ h. Some (word_of (hash_of h.0.now)) };

    fn fmt<W: fmt::Write>(&self, f: &mut fmt::Formatter<W>) -> fmt::Result {
        write!(f, "{}", Hex::joined(&hash(self.0).to_be_bytes()))
    }
}
