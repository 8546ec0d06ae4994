// Bytes as digits.
#![tactic(auto)]

ghost use Rattle.std.specs.Prelude.{◌≡◌, [], ◌∷◌, ◌<◌, length, Some};
ghost use Rattle.std.specs.Fmt.{WritesOnOk};
ghost use Rattle.hexing.specs.Digits.{digit_of, pair_of, spelled};

use std::fmt;

fn digit(d: u8) -> u8
    requires { d < 16 }
    ensures { result ≡ digit_of d }
{
    if d < 10 { b'0' + d } else { b'A' - 10 + d }
}

// A byte as two digits of upper-case hex, for who prints so many that a formatter takes too long.
pub fn pair(b: u8) -> [u8; 2]
    ensures len { 2 ≡ length result }
    ensures digits { result ≡ pair_of b }
{
    [digit(b / 16), digit(b % 16)]
}

// The same, written.
fn put_pair<W: fmt::Write>(b: u8, f: &mut fmt::Formatter<W>) -> fmt::Result
    ensures { WritesOnOk W.write_str_gives f.old result (pair_of b) f.new }
{
    write!(f, "{b:02X}")
}

// Some bytes, as two digits of upper-case hex each, and what stands between two of them.
#[derive(Clone, Copy)]
pub struct Hex<'a> {
    pub bytes: &'a [u8],
    pub between: &'a str,
}

impl<'a> Hex<'a> {
    // With nothing between.
    pub fn joined(bytes: &'a [u8]) -> Self
        ensures { (result.bytes.now ≡ bytes.now) × (result.between.now ≡ []) }
    {
        Hex { bytes, between: "" }
    }

    pub fn spaced(bytes: &'a [u8]) -> Self
        ensures { (result.bytes.now ≡ bytes.now) × (result.between.now ≡ 32 ∷ []) }
    {
        Hex {
            bytes,
            between: " ",
        }
    }
}

impl fmt::Display for Hex<'_> {
    ghost output = { λ h. Some (spelled h.between.now h.bytes.now) };

    fn fmt<W: fmt::Write>(&self, f: &mut fmt::Formatter<W>) -> fmt::Result {
        let Some((first, others)) = self.bytes.split_first() else {
            return Ok(());
        };
        put_pair(*first, f)?;
        for b in others {
            f.write_str(self.between)?;
            put_pair(*b, f)?;
        }
        Ok(())
    }
}
