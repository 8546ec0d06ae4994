// The bytes of a text by class, and runs of them.
#![tactic(auto)]

ghost use Rattle.std.specs.Prelude.{◌≡◌, ◌+◌, ◌≤◌, length, drop};
ghost use Rattle.text.specs.Classes.{class_of, of, front};
ghost use Rattle.classes.specs.Table.{number_of, spelling};

// The classes, in the order of the definition's numbers.
#[derive(Clone, Copy, PartialEq, Eq, PartialOrd, Ord)]
pub enum Class {
    // Begins no token.
    Other,
    Blank,
    Slash,
    Capital,
    // A small letter, but s, t and e.
    Small,
    // s, t and e, which begin a variable.
    Typed,
    Digit,
    Dash,
    Quote,
    // A sign that is a token by itself.
    Sign,
    Call,
    Star,
    LineEnd,
}

use Class::{
    Blank as B, Call as A, Capital as C, Dash as H, Digit as D, LineEnd as E, Other as O,
    Quote as Q, Sign as P, Slash as S, Small as L, Star as R, Typed as T,
};

// The class of each byte, 32 bytes in two rows.
static CLASSES: [Class; 256] = [
    O, O, O, O, O, O, O, O, O, B, E, O, O, E, O, O, O, O, O, O, O, O, O, O, O, O, O, O, O, O, O, O, //
    B, O, Q, O, O, O, O, Q, P, P, R, O, O, H, O, S, D, D, D, D, D, D, D, D, D, D, O, P, A, P, P, O, //
    O, C, C, C, C, C, C, C, C, C, C, C, C, C, C, C, C, C, C, C, C, C, C, C, C, C, C, O, O, O, O, H, //
    O, L, L, L, L, T, L, L, L, L, L, L, L, L, L, L, L, L, L, T, T, L, L, L, L, L, L, P, O, P, O, O, //
    O, O, O, O, O, O, O, O, O, O, O, O, O, O, O, O, O, O, O, O, O, O, O, O, O, O, O, O, O, O, O, O, //
    O, O, O, O, O, O, O, O, O, O, O, O, O, O, O, O, O, O, O, O, O, O, O, O, O, O, O, O, O, O, O, O, //
    O, O, O, O, O, O, O, O, O, O, O, O, O, O, O, O, O, O, O, O, O, O, O, O, O, O, O, O, O, O, O, O, //
    O, O, O, O, O, O, O, O, O, O, O, O, O, O, O, O, O, O, O, O, O, O, O, O, O, O, O, O, O, O, O, O, //
];

pub fn class_of(b: u8) -> Class
    ensures { number_of result ≡ class_of b }
{
    CLASSES[b as usize]
}

// A byte of a name in its one spelling; 0 for a byte that cannot stand in a name, so that one test tells two names apart, and their ends.
pub fn spelling_of(b: u8) -> u8
    ensures { result ≡ spelling b }
{
    match class_of(b) {
        Class::Capital => b + 32,
        Class::Small | Class::Typed | Class::Digit => b,
        Class::Dash => b'-',
        _ => 0,
    }
}

// The definition's number of a class; spans of classes are spans of these numbers.
fn number(class: Class) -> u8
    ensures { result ≡ number_of class }
{
    class as u8
}

// Where the longest run of bytes of the classes lo to hi ends that begins at from.
pub fn run_end(s: &[u8], from: usize, lo: Class, hi: Class) -> usize
    ensures { result ≡ from + length (front (of (number_of lo) (number_of hi)) (drop from s.now)) }
{
    let (lo, hi) = (number(lo), number(hi));
    for i in from..s.len() {
        let k = number(class_of(s[i]));
        if k < lo || hi < k {
            return i;
        }
    }
    from.max(s.len())
}
