// Rules as text, read into program bytes and a name list.
#![tactic(auto)]

ghost use Rattle.std.specs.Prelude.{◌≡◌, List, ◌+◌, ◌*◌, ◌≤◌, ◌<◌, length};
ghost use Rattle.meaning.specs.Elements.{Element as Bytes, join};
ghost use Rattle.text.specs.Reading.{type_of, says, said};
ghost use Rattle.text.specs.Answers.{outcome, fitted, read_text};
ghost use Rattle.names.specs.Names.{named};
ghost use Rattle.names.specs.Entries.{firsts};
ghost use Rattle.tokens.specs.Lexemes.{Proper};
ghost use Rattle.putting.specs.Putting.{Filled, Able};
ghost use Rattle.reading.specs.Reading.{begun, gaps, Spaced, Sentence, Met, Finishing, ToldBy};
ghost use Rattle.reading.specs.Answers.{code_of, reply_of};

use elements::Element;
use names::Names;
use putting::{Phase, Reader};
use taking::State;
use tokens::{Lexeme, Token};
use variables::Variables;

// The longest text, program and list.
const LONGEST: usize = 65536;

// Why a reading came to its end, by the paper's numbers.
#[derive(Clone, Copy, Debug, PartialEq, Eq)]
pub enum Code {
    Read = 0,
    NoRoom = 4,
    BadSizes = 5,
    BadText = 8,
}

// The code, the bytes of program and list, and a place in the text.
#[derive(Clone, Copy)]
pub struct Answer {
    pub code: Code,
    pub program: usize,
    pub names: usize,
    pub place: usize,
}

// The paper's number of a code.
pub fn number(code: Code) -> u8
    ensures { result ≡ code_of code }
{
    code as u8
}

// A variable's kind by its letter.
fn type_of(letter: u8) -> u8
    ensures { result ≡ type_of letter }
{
    match letter {
        b's' => kinds::S_VARIABLE,
        b't' => kinds::T_VARIABLE,
        _ => kinds::E_VARIABLE,
    }
}

// The number of a token's name or variable, 0 for another token; a new one is kept in the tables.
// 0 and no Option, as the definition number_in has it: no other token's number is looked at.
fn meet(at: usize, lexeme: Lexeme, names: &mut Names, variables: &mut Variables) -> u32
    requires in_text { at < length names.old.text.now }
    requires proper { Proper names.old.text.now at lexeme.token lexeme.end × Spaced names.old.text.now at names.old.count }
    requires sentence { Sentence names.old variables.old }
    ensures { Met at lexeme.token names.old variables.old names.new variables.new result }
{
    match lexeme.token {
        Token::Name => names.number(at) as u32,
        Token::Call => names.number(at + 1) as u32,
        Token::Variable(start, size) => {
            variables.number(type_of(names.text[at]), start, size) as u32
        }
        _ => 0,
    }
}

// The end of the text ends the program, but not behind a semicolon that parts functions. An error is a place.
fn finish(reader: Reader, end: usize, stack: &mut [u8], buf: &mut [u8]) -> Result<usize, usize>
    requires { Able reader stack.old buf.old }
    ensures { Finishing end reader stack.old buf.old buf.new result }
{
    if reader.phase == Phase::Owed {
        return Err(end);
    }
    match putting::put(reader, Element::ProgramEnd, stack, buf) {
        Some(last) => Ok(last.len),
        None => Err(end),
    }
}

fn is_gap(token: Token) -> bool
    ensures { result ≡ gaps token }
{
    matches!(token, Token::Gap)
}

// Before the first token.
fn begin() -> Reader
    ensures { result ≡ begun }
{
    Reader {
        phase: Phase::Free,
        names: 0,
        variables: 0,
        state: State::BEGUN,
        len: 0,
    }
}

// Reads the text of the names, token by token, into a buffer; the bytes of the program, or the place where the text is bad.
fn say(names: &mut Names, buf: &mut [u8]) -> Result<usize, usize>
    requires { (names.old.count ≡ 0) × (length buf.old ≡ 65536) }
    ensures { ToldBy names.old names.new buf.new result }
{
    let text = names.text;
    let mut variables = Variables::new(text);
    let mut stack = [0u8; 400];
    let mut reader = begin();
    let mut at: usize = 0;
    // Where the next lexeme begins is known only behind this one, so no range has the places.
    while at < text.len() {
        let lexeme = tokens::lex(text, at);
        if is_gap(lexeme.token) {
            at = lexeme.end;
            continue;
        }
        let number = meet(at, lexeme, names, &mut variables);
        let known = Reader {
            names: names.count,
            variables: variables.count,
            ..reader
        };
        let Some(next) = putting::enter(text, at, lexeme, number, known, &mut stack, buf) else {
            return Err(at);
        };
        variables.keep(next.variables);
        reader = next;
        at = lexeme.end;
    }
    finish(reader, text.len(), &mut stack, buf)
}

// Hands over what was read, if there is room for it.
// Here and below text, program and list are the parameters of `read`, which may not change.
fn give(names: &Names, buf: &[u8], len: usize, program: &mut [u8], list: &mut [u8]) -> Answer
    requires { (length buf.now ≡ 65536) × (length program.old ≤ 65536) }
    ensures { (es : List Bytes) → Filled buf.now (join es) len → outcome (reply_of result) program.new list.new ≡ fitted (says es (named names.now.text.now (firsts names.now.entries) names.now.count)) program.old list.old }
{
    let size = 16 * names.count;
    if program.len() < len || list.len() < size {
        return refused(Code::NoRoom, 0);
    }
    moving::copy(buf, 0, len, program, 0);
    moving::clear(program, len, program.len());
    names.write_list(list);
    Answer {
        code: Code::Read,
        program: len,
        names: size,
        place: 0,
    }
}

fn refused(code: Code, place: usize) -> Answer
    ensures { (result.code ≡ code) × (result.program ≡ 0) × (result.names ≡ 0) × (result.place ≡ place) }
{
    Answer {
        code,
        program: 0,
        names: 0,
        place,
    }
}

// Reads a text of sizes that are in order.
fn read_sized(text: &[u8], program: &mut [u8], list: &mut [u8]) -> Answer
    requires { (length text.now ≤ 65536) × (length program.old ≤ 65536) }
    ensures { outcome (reply_of result) program.new list.new ≡ fitted (said text.now) program.old list.old }
{
    let mut names = Names::new(text);
    let mut buf = [0u8; 65536];
    match say(&mut names, &mut buf) {
        Ok(len) => give(&names, &buf, len, program, list),
        Err(place) => refused(Code::BadText, place),
    }
}

// Reads rules as text into program bytes and a name list; both outputs are touched only if the text is good and has room.
pub fn read(text: &[u8], program: &mut [u8], list: &mut [u8]) -> Answer
    ensures { outcome (reply_of result) program.new list.new ≡ read_text text.now program.old list.old }
{
    if LONGEST < text.len() || LONGEST < program.len() || LONGEST < list.len() {
        return refused(Code::BadSizes, 0);
    }
    read_sized(text, program, list)
}
