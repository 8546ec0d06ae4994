// Elements read off bytes, terms passed over, values compared.
#![tactic(auto)]

ghost use Rattle.std.specs.Prelude.{◌≡◌, ◌+◌, ◌^◌, ◌<◌, ◌≤◌, length, get_or, take, drop};
ghost use Rattle.meaning.specs.Elements.{body, elements};
ghost use Rattle.elements.specs.Bytes.{kind_of, number_of, digits, Told};
ghost use Rattle.elements.specs.Reading.{ReadAt, Proper, NumberedAt, PassedOver, Level, depth_after, Characters, Shutting, Shut, SymbolEnd, TermEnd, ProperAt, Shared, Comparing};

// An element: fifteen kinds, with the number in the body where there is one.
#[derive(Clone, Copy, PartialEq, Eq)]
pub enum Element {
    Character(u32),
    Name(u32),
    Macrodigit(u32),
    Open,
    Close,
    Call(u32),
    Return,
    SVariable(u32),
    TVariable(u32),
    EVariable(u32),
    Equals,
    SentenceEnd,
    Header(u32),
    FunctionEnd,
    ProgramEnd,
}

// A place between elements.
#[derive(Clone, Copy, PartialEq, Eq)]
pub struct Cursor {
    pub at: usize,
}

// An element passed over: its kind, and the moved cursor.
#[derive(Clone, Copy)]
pub struct Passed {
    pub kind: u8,
    pub next: Cursor,
}

// An element of a known kind: the number in its body, and the moved cursor.
#[derive(Clone, Copy)]
pub struct Numbered {
    pub number: u32,
    pub next: Cursor,
}

// Why a cursor reads no element: its kind is unknown, its body is cut short, or nothing is left.
#[derive(Clone, Copy, PartialEq, Eq)]
pub enum Unread {
    Unknown,
    Cut,
    End,
}

// The kind's byte.
// By hand: the paper gives the numbers, and eight variants have a body, which no derive turns into a byte.
pub fn kind_of(x: Element) -> u8
    ensures { result ≡ kind_of x }
{
    match x {
        Element::Character(_) => kinds::CHARACTER,
        Element::Name(_) => kinds::NAME,
        Element::Macrodigit(_) => kinds::MACRODIGIT,
        Element::Open => kinds::OPEN,
        Element::Close => kinds::CLOSE,
        Element::Call(_) => kinds::CALL,
        Element::Return => kinds::RETURN,
        Element::SVariable(_) => kinds::S_VARIABLE,
        Element::TVariable(_) => kinds::T_VARIABLE,
        Element::EVariable(_) => kinds::E_VARIABLE,
        Element::Equals => kinds::EQUALS,
        Element::SentenceEnd => kinds::SENTENCE_END,
        Element::Header(_) => kinds::HEADER,
        Element::FunctionEnd => kinds::FUNCTION_END,
        Element::ProgramEnd => kinds::PROGRAM_END,
    }
}

// The number in the body, or 0 as the definition number_of has it: an Option would be no plainer.
pub fn number_of(x: Element) -> u32
    ensures { result ≡ number_of x }
{
    match x {
        Element::Character(n)
        | Element::Name(n)
        | Element::Macrodigit(n)
        | Element::Call(n)
        | Element::SVariable(n)
        | Element::TVariable(n)
        | Element::EVariable(n)
        | Element::Header(n) => n,
        _ => 0,
    }
}

// The number in a body, which has none, one, two or four bytes, the low one first.
fn number_at(s: &[u8], at: usize, width: usize) -> u32
    requires { (at + width ≤ length s.now) × (width ≤ 4) × (width ≡ 3 → ⊥) }
    ensures { (digits width result ≡ take width (drop at s.now)) × (result < 256 ^ width) }
{
    match width {
        0 => 0,
        1 => u32::from(s[at]),
        2 => u32::from(u16::from_le_bytes([s[at], s[at + 1]])),
        _ => u32::from_le_bytes([s[at], s[at + 1], s[at + 2], s[at + 3]]),
    }
}

impl Cursor {
    // Reads one element, and hands the moved cursor back. Each kind has its own arm, so that no place waits for a look-up.
    pub fn read(self, s: &[u8]) -> Result<(Element, Cursor), Unread>
        ensures { ReadAt s.now self.at result }
    {
        let at = self.at;
        if s.len() <= at {
            return Err(Unread::End);
        }
        let k = s[at];
        if s.len() - at < kinds::length_of(k) {
            return Err(Unread::Cut);
        }
        let body = at + 1;
        // behind a body of no byte, of one, of two, of four
        let none = Cursor { at: body };
        let one = Cursor { at: body + 1 };
        let two = Cursor { at: body + 2 };
        let four = Cursor { at: body + 4 };
        match k {
            kinds::CHARACTER => Ok((Element::Character(number_at(s, body, 1)), one)),
            kinds::NAME => Ok((Element::Name(number_at(s, body, 2)), two)),
            kinds::MACRODIGIT => Ok((Element::Macrodigit(number_at(s, body, 4)), four)),
            kinds::OPEN => Ok((Element::Open, none)),
            kinds::CLOSE => Ok((Element::Close, none)),
            kinds::CALL => Ok((Element::Call(number_at(s, body, 2)), two)),
            kinds::RETURN => Ok((Element::Return, none)),
            kinds::S_VARIABLE => Ok((Element::SVariable(number_at(s, body, 1)), one)),
            kinds::T_VARIABLE => Ok((Element::TVariable(number_at(s, body, 1)), one)),
            kinds::E_VARIABLE => Ok((Element::EVariable(number_at(s, body, 1)), one)),
            kinds::EQUALS => Ok((Element::Equals, none)),
            kinds::SENTENCE_END => Ok((Element::SentenceEnd, none)),
            kinds::HEADER => Ok((Element::Header(number_at(s, body, 2)), two)),
            kinds::FUNCTION_END => Ok((Element::FunctionEnd, none)),
            kinds::PROGRAM_END => Ok((Element::ProgramEnd, none)),
            _ => Err(Unread::Unknown),
        }
    }

    // Reads an element whose kind is known, and hands the moved cursor back: no kind is read, and no element made.
    pub fn read_as(self, s: &[u8], kind: u8) -> Numbered
        requires { self.at + 1 + body kind ≤ length s.now }
        ensures { NumberedAt s.now self.at kind result.number result.next.at }
    {
        let at = self.at;
        let length = kinds::length_of(kind);
        Numbered {
            number: number_at(s, at + 1, length - 1),
            next: Cursor { at: at + length },
        }
    }

    // Passes over one element by its kind alone, and hands the moved cursor back: past the end, where the element is cut short.
    pub fn pass(self, s: &[u8]) -> Passed
        requires { self.at < length s.now }
        ensures { PassedOver s.now self.at result.kind result.next.at }
    {
        let at = self.at;
        let kind = s[at];
        Passed {
            kind,
            next: Cursor {
                at: at + kinds::length_of(kind),
            },
        }
    }

    // Past the characters that end at `to` at the latest, up to one with the code `stop`, if that is a byte. Most elements are
    // characters: their stride is fixed, so that a processor can run ahead. `stop` is no `Option<u8>`, as that would take fewer values.
    // Callers that stop at no code give 256, which no byte is.
    pub fn past_characters(self, s: &[u8], stop: u16, to: usize) -> Cursor
        requires { to ≤ length s.now }
        ensures { Characters s.now stop to self.at result.at }
    {
        let last = to.saturating_sub(1);
        // Two exits as two tests: one condition for both, as a take_while has it, takes one and a half times as long.
        let mut at = self.at;
        while at < last {
            if s[at] != kinds::CHARACTER {
                return Cursor { at };
            }
            if s[at + 1] as u16 == stop {
                return Cursor { at };
            }
            at += 2;
        }
        Cursor { at }
    }
}

// Past the symbol at a place.
pub fn symbol_end(s: &[u8], at: usize) -> Option<usize>
    requires { Level s.now at }
    ensures { SymbolEnd s.now at result }
{
    let k = *s.get(at)?;
    if kinds::is_symbol(k) {
        Some(at + kinds::length_of(k))
    } else {
        None
    }
}

// The open brackets after an element of kind k.
pub fn depth_after(k: u8, depth: usize) -> usize
    requires { (1 ≤ depth) × (depth < 18446744073709551615) }
    ensures { result ≡ depth_after k depth }
{
    match k {
        kinds::OPEN => depth + 1,
        kinds::CLOSE => depth - 1,
        _ => depth,
    }
}

// Past the bracket that closes the one that was opened just before a place.
fn shut_end(s: &[u8], at: usize) -> usize
    requires { Shutting s.now at }
    ensures { Shut s.now at result }
{
    let mut c = Cursor { at };
    let mut depth: usize = 1;
    while 0 < depth {
        c = c.past_characters(s, 256, s.len());
        let i = c.at;
        // A closing bracket by itself: what stands behind it is read without waiting for a look-up.
        if s[i] == kinds::CLOSE {
            depth -= 1;
            c = Cursor { at: i + 1 };
        } else {
            let passed = c.pass(s);
            depth = depth_after(passed.kind, depth);
            c = passed.next;
        }
    }
    c.at
}

// Past the term at a place.
pub fn term_end(s: &[u8], at: usize) -> Option<usize>
    requires { Level s.now at }
    ensures { TermEnd s.now at result }
{
    match *s.get(at)? {
        // Most terms are symbols.
        k if kinds::is_symbol(k) => Some(at + kinds::length_of(k)),
        kinds::OPEN => Some(shut_end(s, at + 1)),
        _ => None,
    }
}

// Past the element a[at..end], if it stands in both there: byte by byte.
fn shared_bytes(a: &[u8], b: &[u8], at: usize, end: usize) -> Option<usize>
    requires { ProperAt a.now at × (end ≡ at + 1 + body (get_or a.now at 0)) × (at ≤ length b.now) }
    ensures { Shared a.now b.now at result }
{
    if end <= b.len() && a[at..end] == b[at..end] {
        Some(end)
    } else {
        None
    }
}

// Past the element at a place, if it stands in both there.
fn shared_end(a: &[u8], b: &[u8], at: usize) -> Option<usize>
    requires { ProperAt a.now at × (at ≤ length b.now) }
    ensures { Shared a.now b.now at result }
{
    let c = Cursor { at };
    let passed = c.pass(a);
    // Most elements are symbols: no element need be made of them.
    if kinds::is_symbol(passed.kind) {
        return shared_bytes(a, b, at, passed.next.at);
    }
    let (x, next) = c.read(a).ok()?;
    let (y, _) = c.read(b).ok()?;
    if x == y { Some(next.at) } else { None }
}

// Past the characters at a place that stand in both there. By hand as past_characters is: chunks, zipped and taken while equal, are no plainer.
fn shared_characters(a: &[u8], b: &[u8], at: usize) -> usize
    requires { Comparing a.now b.now at }
    ensures { Comparing a.now b.now result × (at ≤ result) }
{
    let mut i = at;
    while i + 1 < a.len()
        && a[i] == kinds::CHARACTER
        && b[i] == kinds::CHARACTER
        && a[i + 1] == b[i + 1]
    {
        i += 2;
    }
    i
}

// Whether two values are equal. It goes element by element until change request Five, which is to change it alone.
pub fn equal_values(a: &[u8], b: &[u8]) -> bool
    requires { Proper (elements a.now) }
    ensures { Told result (elements a.now ≡ elements b.now) }
{
    if a.len() != b.len() {
        return false;
    }
    let mut at = shared_characters(a, b, 0);
    while at < a.len() {
        let Some(next) = shared_end(a, b, at) else {
            return false;
        };
        at = shared_characters(a, b, next);
    }
    true
}
