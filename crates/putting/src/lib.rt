// Elements of a text put through the program's check and into a buffer, and what each token makes.
#![tactic(auto)]

ghost use Rattle.std.specs.Prelude.{◌≡◌, false, List, ◌∷◌, [], map, ℕ, ◌+◌, ◌-◌, ◌*◌, ◌^◌, ◌≤◌, ◌<◌, length, get_or, drop};
ghost use Rattle.std.proofs.lemmas.List.Edits.{sets};
ghost use Rattle.meaning.specs.Elements.{body};
ghost use Rattle.elements.specs.Bytes.{kind_of, number_of, digits};
ghost use Rattle.text.specs.Tokens.{quoted};
ghost use Rattle.text.specs.Reading.{element, put_all, type_of, is_sign, entering};
ghost use Rattle.tokens.specs.Lexemes.{characters_of, token_of};
ghost use Rattle.putting.specs.Putting.{phase_of, phase_numbered, phase_next, kept_count, Written, Able, Onward, past_character, Closes, further_by, Sure, Runs, braced, signing, making_within, making_header, Entered};

use elements::Element;
use taking::State;
use tokens::{Lexeme, Token};

// The phases: a function may begin or the text end; so, or a semicolon may stand (behind a function); a function must begin (behind that
// semicolon); an opening brace must follow (behind a function's name); inside a function's braces.
#[derive(Clone, Copy, Debug, PartialEq, Eq)]
pub enum Phase {
    Free,
    Between,
    Owed,
    Named,
    Inside,
}

// The phases by their numbers, in the order of the definition; any other number is the first's.
impl From<usize> for Phase {
    ghost from_gives = { λ n p. phase_of p ≡ phase_numbered n };

    fn from(number: usize) -> Phase {
        match number {
            1 => Phase::Between,
            2 => Phase::Owed,
            3 => Phase::Named,
            4 => Phase::Inside,
            _ => Phase::Free,
        }
    }
}

// Where reading stands: the phase, the names so far, the variables of this sentence, the check, and the bytes so far.
#[derive(Clone, Copy)]
pub struct Reader {
    pub phase: Phase,
    pub names: usize,
    pub variables: usize,
    pub state: State,
    pub len: usize,
}

// A number's n bytes, the low byte first. By hand: n is 0 to 4, and copy_from_slice would be a call of memcpy each time.
fn write_number(buf: &mut [u8], at: usize, n: usize, number: u32)
    requires { at + n ≤ length buf.old }
    ensures { buf.new ≡ sets buf.old at (digits n number) }
{
    let mut rest = number;
    for i in 0..n {
        buf[at + i] = (rest % 256) as u8;
        rest /= 256;
    }
}

// One element behind the first len bytes; the length then, or one more than the buffer has where it does not fit.
// A length and no refusal: reading goes on, and one test at its end says whether the program fits.
fn write(buf: &mut [u8], len: usize, kind: u8, number: u32) -> usize
    requires { len ≤ length buf.old + 1 }
    ensures { Written buf.old len (kind ∷ digits (body kind) number) result buf.new }
{
    let size = kinds::length_of(kind);
    if buf.len() < len + size {
        return buf.len() + 1;
    }
    buf[len] = kind;
    write_number(buf, len + 1, size - 1, number);
    len + size
}

// An opening brace must follow a header, and a function is over behind its end.
fn phase_after(kind: u8, phase: Phase) -> Phase
    ensures { result ≡ phase_next kind phase }
{
    match kind {
        kinds::HEADER => Phase::Named,
        kinds::FUNCTION_END => Phase::Between,
        _ => phase,
    }
}

// Variables are numbered anew behind a header and behind each sentence.
fn kept(kind: u8, variables: usize) -> usize
    ensures { result ≡ kept_count kind variables }
{
    match kind {
        kinds::HEADER => 0,
        kinds::SENTENCE_END => 0,
        _ => variables,
    }
}

// Puts one element, if it is good.
// Stack and buffer stay two slices of any length, as callers of `enter` may lend them: a struct of arrays would ask for more, and one of
// slices would have to say in each contract that its slices stay the ones that were lent. `Able` stays a clause: it holds which reader of
// the definition this one stands for, a choice, and a ghost field may have one proof at most.
pub fn put(reader: Reader, e: Element, stack: &mut [u8], buf: &mut [u8]) -> Option<Reader>
    requires { Able reader stack.old buf.old × (number_of e < 256 ^ body (kind_of e)) }
    ensures { Onward (put_all (element (kind_of e) (number_of e) ∷ [])) reader stack.old buf.old result stack.new buf.new }
{
    let state = taking::take(reader.state, e, stack).ok()?;
    let kind = elements::kind_of(e);
    Some(Reader {
        phase: phase_after(kind, reader.phase),
        variables: kept(kind, reader.variables),
        state,
        len: write(buf, reader.len, kind, elements::number_of(e)),
        ..reader
    })
}

fn character(b: u8) -> Element
    ensures { (kind_of result ≡ 1) × (number_of result ≡ b) × (b < 256) }
{
    Element::Character(b as u32)
}

fn macrodigit(v: u32) -> Element
    ensures { (kind_of result ≡ 3) × (number_of result ≡ v) × (v < 4294967296) }
{
    Element::Macrodigit(v)
}

// A quote inside a string is doubled.
fn past_character(i: usize, b: u8, quote: u8) -> usize
    requires { i + 2 < 2 ^ 64 }
    ensures { result ≡ past_character i b quote }
{
    if b == quote { i + 2 } else { i + 1 }
}

// So many characters further.
fn further(mut reader: Reader, n: usize) -> Reader
    requires { (reader.state.count + n < 2 ^ 64) × (reader.len + 2 * n < 2 ^ 64) }
    ensures { result ≡ further_by reader n }
{
    reader.state.count += n;
    reader.len += 2 * n;
    reader
}

// How far characters were put, and where reading stands then.
#[derive(Clone, Copy)]
struct Run {
    at: usize,
    reader: Reader,
}

// How many characters surely are good: as far as the string, the side and the buffer have room.
fn sure(reader: Reader, limit: usize, bytes: usize, left: usize) -> usize
    ensures { Sure reader.state.count reader.len limit bytes left result }
{
    let side = limit.saturating_sub(reader.state.count);
    let space = bytes.saturating_sub(reader.len) / 2;
    left.min(side).min(space)
}

// How many characters stand before the first quote.
fn before_quote(text: &[u8], quote: u8) -> usize
    ensures { (result ≤ length text.now) × ((k : ℕ) → k < result → get_or text.now k 0 ≡ quote → ⊥) }
{
    text.iter().position(|b| *b == quote).unwrap_or(text.len())
}

// Puts characters that surely are good, up to the next quote.
fn put_run(text: &[u8], from: usize, last: usize, quote: u8, reader: Reader, buf: &mut [u8]) -> Run
    requires { Closes text.now quote from last }
    ensures { (from ≤ result.at) × Runs text.now quote last from reader buf.old result.at result.reader buf.new }
{
    let none = Run { at: from, reader };
    let part = reader.state.part;
    if !taking::between(taking::LEFT, taking::RIGHT, part) {
        return none;
    }
    let n = sure(reader, taking::limit_of(part), buf.len(), last - from);
    if n == 0 {
        return none;
    }
    // The quote is looked for first: a loop that only writes takes many characters at once.
    let n = before_quote(&text[from..from + n], quote);
    let len = reader.len;
    for k in 0..n {
        buf[len + 2 * k] = kinds::CHARACTER;
        buf[len + 2 * k + 1] = text[from + k];
    }
    Run {
        at: from + n,
        reader: further(reader, n),
    }
}

// Puts the characters of a string from `from` up to its closing quote at `last`.
fn put_characters(
    text: &[u8],
    from: usize,
    last: usize,
    quote: u8,
    reader: Reader,
    stack: &mut [u8],
    buf: &mut [u8],
) -> Option<Reader>
    requires { Able reader stack.old buf.old × Closes text.now quote from last }
    ensures { Onward (put_all (map (element 1) (characters_of (quoted quote false (drop from text.now))))) reader stack.old buf.old result stack.new buf.new }
{
    let mut i = from;
    let mut at = reader;
    // Where the next character stands is known only behind a run, so no range has the places.
    while i < last {
        let b = text[i];
        let next = put(at, character(b), stack, buf)?;
        let run = put_run(text, past_character(i, b, quote), last, quote, next, buf);
        at = run.reader;
        i = run.at;
    }
    Some(at)
}

// A closing brace ends a sentence whose semicolon was left out, and the function.
fn put_brace(reader: Reader, stack: &mut [u8], buf: &mut [u8]) -> Option<Reader>
    requires { Able reader stack.old buf.old }
    ensures { Onward braced reader stack.old buf.old result stack.new buf.new }
{
    if reader.state.part != taking::RIGHT {
        return put(reader, Element::FunctionEnd, stack, buf);
    }
    let next = put(reader, Element::SentenceEnd, stack, buf)?;
    put(next, Element::FunctionEnd, stack, buf)
}

fn put_sign(reader: Reader, sign: u8, stack: &mut [u8], buf: &mut [u8]) -> Option<Reader>
    requires { Able reader stack.old buf.old }
    ensures { Onward (signing sign) reader stack.old buf.old result stack.new buf.new }
{
    match sign {
        b'(' => put(reader, Element::Open, stack, buf),
        b')' => put(reader, Element::Close, stack, buf),
        b'>' => put(reader, Element::Return, stack, buf),
        b'=' => put(reader, Element::Equals, stack, buf),
        b';' => put(reader, Element::SentenceEnd, stack, buf),
        b'}' => put_brace(reader, stack, buf),
        _ => None,
    }
}

// A variable by its letter.
fn variable(letter: u8, number: u32) -> Element
    ensures { (kind_of result ≡ type_of letter) × (number_of result ≡ number) }
{
    match letter {
        b's' => Element::SVariable(number),
        b't' => Element::TVariable(number),
        _ => Element::EVariable(number),
    }
}

// What a token makes inside a function's braces; its name or variable has this number.
fn put_within(
    text: &[u8],
    at: usize,
    lexeme: Lexeme,
    number: u32,
    reader: Reader,
    stack: &mut [u8],
    buf: &mut [u8],
) -> Option<Reader>
    requires { Able reader stack.old buf.old × (at < length text.now) × Entered text.now at lexeme.token lexeme.end number }
    ensures { Onward (making_within (token_of text.now at lexeme.token) number) reader stack.old buf.old result stack.new buf.new }
{
    match lexeme.token {
        Token::Gap | Token::Malformed => None,
        Token::Name => put(reader, Element::Name(number), stack, buf),
        Token::Call => put(reader, Element::Call(number), stack, buf),
        Token::Macrodigit(v) => put(reader, macrodigit(v), stack, buf),
        Token::String => {
            put_characters(text, at + 1, lexeme.end - 1, text[at], reader, stack, buf)
        }
        Token::Variable(_, _) => put(reader, variable(text[at], number), stack, buf),
        Token::Sign => put_sign(reader, text[at], stack, buf),
    }
}

// A function's name makes its header.
fn put_header(
    token: Token,
    number: u32,
    reader: Reader,
    stack: &mut [u8],
    buf: &mut [u8],
) -> Option<Reader>
    requires { Able reader stack.old buf.old × (number < 65536) }
    ensures { (s : List ℕ) (at : ℕ) → Onward (making_header (token_of s at token) number) reader stack.old buf.old result stack.new buf.new }
{
    match token {
        Token::Name => put(reader, Element::Header(number), stack, buf),
        _ => None,
    }
}

// Whether the token, of which this is the first byte, is that sign.
fn is_sign(token: Token, byte: u8, sign: u8) -> bool
    ensures { (s : List ℕ) (at : ℕ) → byte ≡ get_or s at 0 → result ≡ is_sign sign (token_of s at token) }
{
    if let Token::Sign = token {
        byte == sign
    } else {
        false
    }
}

// One token more, whose name or variable has this number.
pub fn enter(
    text: &[u8],
    at: usize,
    lexeme: Lexeme,
    number: u32,
    reader: Reader,
    stack: &mut [u8],
    buf: &mut [u8],
) -> Option<Reader>
    requires { Able reader stack.old buf.old × (at < length text.now) × Entered text.now at lexeme.token lexeme.end number }
    ensures { Onward (entering (token_of text.now at lexeme.token) number) reader stack.old buf.old result stack.new buf.new }
{
    let token = lexeme.token;
    match reader.phase {
        Phase::Inside => put_within(text, at, lexeme, number, reader, stack, buf),
        Phase::Named => {
            if !is_sign(token, text[at], b'{') {
                return None;
            }
            Some(Reader {
                phase: Phase::Inside,
                ..reader
            })
        }
        Phase::Between => {
            if is_sign(token, text[at], b';') {
                return Some(Reader {
                    phase: Phase::Owed,
                    ..reader
                });
            }
            put_header(token, number, reader, stack, buf)
        }
        _ => put_header(token, number, reader, stack, buf),
    }
}
