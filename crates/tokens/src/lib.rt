// What begins at a place of a text: a token, or a gap. Text and place stay two parameters: a struct of them would be made anew for each of
// the places at, at + 1 and at + 2.
#![tactic(auto)]

ghost use Rattle.std.specs.Prelude.{◌≡◌, true, false, ◌||◌, ◌+◌, ◌*◌, ◌-◌, ◌^◌, ◌≤◌, ◌<◌, length, get_or, drop};
ghost use Rattle.meaning.specs.Goodness.{span};
ghost use Rattle.text.specs.Classes.{is_digit};
ghost use Rattle.text.specs.Tokens.{identifier, as_name, as_call, real, apart, indexed, quoted, as_string, commented, slashed as slashed_of};
ghost use Rattle.classes.specs.Table.{number_of};
ghost use Rattle.tokens.specs.Lexemes.{closed_at, past_at, past_name, capped, Sums, column_at, number_at, starred_at, Trimmed, dotted_at, lex_at, Tells, ended};

use classes::Class;

// A token. A name's identifier begins at the token's place, a call's one byte behind it; a string's characters begin there, too.
#[derive(Clone, Copy)]
pub enum Token {
    Gap,
    Malformed,
    Name,
    Call,
    Macrodigit(u32),
    String,
    // Where the index starts, and its length.
    Variable(usize, usize),
    Sign,
}

// A token, and the place behind it.
#[derive(Clone, Copy)]
pub struct Lexeme {
    pub token: Token,
    pub end: usize,
}

fn spanning(token: Token, end: usize) -> Lexeme
    ensures { (result.token ≡ token) × (result.end ≡ end) }
{
    Lexeme { token, end }
}

// A token that ends there; a malformed one where it has no end.
fn ending(at: usize, token: Token, end: Option<usize>) -> Lexeme
    requires { at + 1 < 2 ^ 64 }
    ensures { result ≡ ended at token end }
{
    match end {
        Some(end) => spanning(token, end),
        None => spanning(Token::Malformed, at + 1),
    }
}

// Where the identifier ends that begins at `at`.
fn identifier_end(s: &[u8], at: usize) -> Option<usize>
    requires { at ≤ length s.now }
    ensures { result ≡ past_name at (identifier (drop at s.now)) }
{
    if s.len() <= at || classes::class_of(s[at]) != Class::Capital {
        return None;
    }
    let end = classes::run_end(s, at + 1, Class::Capital, Class::Dash);
    if end <= at + 15 { Some(end) } else { None }
}

fn name(s: &[u8], at: usize) -> Lexeme
    requires { at < length s.now }
    ensures { Tells s.now at result (as_name (identifier (drop at s.now))) }
{
    ending(at, Token::Name, identifier_end(s, at))
}

// A call has its identifier right behind the bracket.
fn call(s: &[u8], at: usize) -> Lexeme
    requires { at < length s.now }
    ensures { Tells s.now at result (as_call (identifier (drop (at + 1) s.now))) }
{
    // Not by `ending`: only here a name has to follow.
    let name = at + 1;
    let Some(end) = identifier_end(s, name) else {
        return spanning(Token::Malformed, name);
    };
    spanning(Token::Call, end)
}

// Where a string ends, past its closing quote, and how many characters it has.
#[derive(Clone, Copy)]
struct Closed {
    end: usize,
    characters: usize,
}

// The string whose first byte after the opening quote q stands at `at`.
fn quoted_from(s: &[u8], at: usize, q: u8) -> Option<Closed>
    ensures { result ≡ closed_at at 0 (quoted q false (drop at s.now)) }
{
    let mut characters: usize = 0;
    let mut i = at;
    // A quote inside is doubled, so no range has the places.
    while i < s.len() {
        let b = s[i];
        if b == q {
            if i + 1 == s.len() || s[i + 1] != q {
                return Some(Closed {
                    end: i + 1,
                    characters,
                });
            }
            i += 1;
        } else if classes::class_of(b) == Class::LineEnd {
            return None;
        }
        characters += 1;
        i += 1;
    }
    None
}

fn string(s: &[u8], at: usize) -> Lexeme
    requires { at < length s.now }
    ensures { Tells s.now at result (as_string (quoted (get_or s.now at 0) false (drop (at + 1) s.now))) }
{
    match quoted_from(s, at + 1, s[at]) {
        Some(closed) if closed.characters <= 255 => spanning(Token::String, closed.end),
        _ => spanning(Token::Malformed, at + 1),
    }
}

fn digit(b: u8) -> u64
    ensures { (result ≡ b - 48) × (result ≤ 255) }
{
    u64::from(b.saturating_sub(b'0'))
}

// One digit more; 2^32 stands for every number that is no macrodigit.
// The definition `capped` has that number too, and an Option would be matched at each digit.
fn add_digit(v: u64, b: u8) -> u64
    requires { v ≤ 4294967296 }
    ensures { result ≡ capped (v * 10 + (b - 48)) }
{
    let w = v * 10 + digit(b);
    if 4294967295 < w { 4294967296 } else { w }
}

// Where digits end, and their value.
#[derive(Clone, Copy)]
struct Sum {
    end: usize,
    value: u64,
}

fn sum_up(s: &[u8], at: usize) -> Sum
    ensures { Sums s.now at result.end result.value }
{
    let mut value = 0;
    for i in at..s.len() {
        let b = s[i];
        if classes::class_of(b) != Class::Digit {
            return Sum { end: i, value };
        }
        value = add_digit(value, b);
    }
    Sum {
        end: at.max(s.len()),
        value,
    }
}

// Whether what stands at `at`, behind digits, makes a real number of them.
fn is_real(s: &[u8], at: usize) -> bool
    ensures { result ≡ real (drop at s.now) }
{
    if s.len() <= at || s.len() <= at + 1 {
        return false;
    }
    matches!(s[at], b'.' | b'E') && classes::class_of(s[at + 1]) == Class::Digit
}

fn number(s: &[u8], at: usize) -> Lexeme
    requires { (at < length s.now) × (is_digit (get_or s.now at 0) ≡ true) }
    ensures { Tells s.now at result (number_at s.now at) }
{
    let Sum { end, value } = sum_up(s, at);
    if is_real(s, end) || 4294967295 < value {
        return spanning(Token::Malformed, at + 1);
    }
    spanning(Token::Macrodigit(value as u32), end)
}

// Where the comment ends whose first byte behind slash and star stands at `at`.
fn comment_end(s: &[u8], at: usize) -> Option<usize>
    ensures { result ≡ past_at at (commented false (drop at s.now)) }
{
    let mut held = false;
    for i in at..s.len() {
        let b = s[i];
        if held && b == b'/' {
            return Some(i + 1);
        }
        held = b == b'*';
    }
    None
}

fn slashed(s: &[u8], at: usize) -> Lexeme
    requires { at < length s.now }
    ensures { Tells s.now at result (slashed_of (drop (at + 1) s.now)) }
{
    if s.len() <= at + 1 || s[at + 1] != b'*' {
        return spanning(Token::Malformed, at + 1);
    }
    ending(at, Token::Gap, comment_end(s, at + 2))
}

fn starts_line(s: &[u8], at: usize) -> bool
    requires { at < length s.now }
    ensures { result ≡ column_at s.now at }
{
    at == 0 || classes::class_of(s[at - 1]) == Class::LineEnd
}

// A star in the first column begins a comment up to the line's end.
fn starred(s: &[u8], at: usize) -> Lexeme
    requires { at < length s.now }
    ensures { Tells s.now at result (starred_at s.now at) }
{
    if starts_line(s, at) {
        let end = classes::run_end(s, at + 1, Class::Other, Class::Star);
        return spanning(Token::Gap, end);
    }
    spanning(Token::Malformed, at + 1)
}

// Behind the zeros that begin a number, but for its last digit.
fn past_zeros(s: &[u8], start: usize, end: usize) -> usize
    requires { (start < end) × (end ≤ length s.now) }
    ensures { Trimmed s.now start end result }
{
    for i in start..end - 1 {
        if s[i] != b'0' {
            return i;
        }
    }
    end - 1
}

fn is_letter(class: Class) -> bool
    ensures { result ≡ span 3 5 (number_of class) }
{
    matches!(class, Class::Capital | Class::Small | Class::Typed)
}

// The index behind a variable's dot: a number, or an identifier whose first letter is in either case.
fn dotted(s: &[u8], at: usize) -> Lexeme
    requires { at + 1 < length s.now }
    ensures { Tells s.now at result (dotted_at s.now at) }
{
    let malformed = spanning(Token::Malformed, at + 1);
    let start = at + 2;
    let end = classes::run_end(s, start, Class::Capital, Class::Dash);
    if end == start {
        return malformed;
    }
    if classes::run_end(s, start, Class::Digit, Class::Digit) == end {
        let first = past_zeros(s, start, end);
        return spanning(Token::Variable(first, end - first), end);
    }
    if start + 15 < end {
        return malformed;
    }
    if is_letter(classes::class_of(s[start])) {
        return spanning(Token::Variable(start, end - start), end);
    }
    malformed
}

// Nothing of an identifier follows at once, but another variable may.
fn is_apart(s: &[u8], at: usize) -> bool
    ensures { result ≡ apart (drop at s.now) }
{
    if s.len() <= at {
        return true;
    }
    let class = classes::class_of(s[at]);
    if class == Class::Typed || class < Class::Capital {
        return true;
    }
    Class::Dash < class
}

fn is_index(class: Class) -> bool
    ensures { result ≡ (span 3 3 (number_of class) || span 6 6 (number_of class)) }
{
    matches!(class, Class::Capital | Class::Digit)
}

// A variable has its index behind a dot, or it is one capital or digit.
fn variable(s: &[u8], at: usize) -> Lexeme
    requires { at < length s.now }
    ensures { Tells s.now at result (indexed (get_or s.now at 0) (drop (at + 1) s.now)) }
{
    let malformed = spanning(Token::Malformed, at + 1);
    if s.len() <= at + 1 {
        return malformed;
    }
    if s[at + 1] == b'.' {
        return dotted(s, at);
    }
    if is_index(classes::class_of(s[at + 1])) && is_apart(s, at + 2) {
        return spanning(Token::Variable(at + 1, 1), at + 2);
    }
    malformed
}

// What begins at a place, by the class of its byte.
pub fn lex(s: &[u8], at: usize) -> Lexeme
    requires { at < length s.now }
    ensures { Tells s.now at result (lex_at s.now at) }
{
    match classes::class_of(s[at]) {
        Class::Blank | Class::LineEnd => spanning(Token::Gap, at + 1),
        Class::Slash => slashed(s, at),
        Class::Capital => name(s, at),
        Class::Typed => variable(s, at),
        Class::Digit => number(s, at),
        Class::Quote => string(s, at),
        Class::Sign => spanning(Token::Sign, at + 1),
        Class::Call => call(s, at),
        Class::Star => starred(s, at),
        Class::Other | Class::Small | Class::Dash => spanning(Token::Malformed, at + 1),
    }
}
