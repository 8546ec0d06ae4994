// Finds a function in a good program, and in its body the first sentence that fits.
#![tactic(auto)]

ghost use Rattle.std.specs.Prelude.{◌≡◌, true, ◌∷◌, [], ◌+◌, ◌≤◌, ◌<◌, length, get_or};
ghost use Rattle.meaning.specs.Elements.{elements, size};
ghost use Rattle.meaning.specs.Machine.{before, holds, apply};
ghost use Rattle.meaning.proofs.Cutting.{Whole};
ghost use Rattle.meaning.proofs.Programs.{Body};
ghost use Rattle.elements.specs.Bytes.{digits, Told};
ghost use Rattle.elements.specs.Reading.{Balanced};
ghost use Rattle.choosing.specs.Choose.{rest_of, sentences, Program, Looked, slot_for, Indexed, Cache, Cached, Chosen};

use building::Side;
use elements::Cursor;

// How many places the table of functions has.
pub const SPOTS: usize = 8192;

// A table of a program's functions, filled as far as it was needed: up to where the program is read, and in each place one more than where
// the header begins that came first to it, or 0: an Option<u16> has four bytes, and the table is cleared at each run.
// What it holds is a clause, Cache, and no ghost field: such a field's fact has one proof at most, and Cache is proved by data.
#[derive(Drop)]
pub struct Index {
    pub read: usize,
    pub spots: [u16; SPOTS],
}

// The kind of the element at a cursor; where it decides, nothing waits for the element to be passed.
fn kind_at(program: &[u8], c: Cursor) -> u8
    requires { c.at < length program.now }
    ensures { result ≡ get_or program.now c.at 0 }
{
    let passed = c.pass(program);
    passed.kind
}

// On to the first element of kind k; there is one.
fn seek_kind(program: &[u8], from: Cursor, k: u8) -> Cursor
    requires whole { Whole (rest_of program.now from.at) }
    requires at_value { holds k (rest_of program.now from.at) ≡ true }
    ensures { result.at ≡ from.at + size (before k (rest_of program.now from.at)) }
{
    let mut c = from;
    while kind_at(program, c) != k {
        let passed = c.pass(program);
        c = passed.next;
    }
    c
}

// Whether a name's number is that of two bytes: one by one, since a processor waits where bytes just written apart are read together.
// A name stays two bytes, `lo` and `hi`, here and below: so the definitions Looked, Entry and Cached have it.
fn is_name(number: u32, lo: u8, hi: u8) -> bool
    requires { number < 65536 }
    ensures { Told result (digits 2 number ≡ lo ∷ hi ∷ []) }
{
    if number % 256 != lo as u32 {
        return false;
    }
    number / 256 == hi as u32
}

// The body of the first function with that name, if there is one.
pub fn find(program: &[u8], lo: u8, hi: u8) -> Option<Cursor>
    requires program { Program program.now }
    ensures { Looked program.now (lo ∷ hi ∷ []) result }
{
    let mut c = Cursor { at: 0 };
    while c.at < program.len() {
        let passed = c.pass(program);
        let next = passed.next;
        if passed.kind == kinds::HEADER {
            let header = c.read_as(program, kinds::HEADER);
            if is_name(header.number, lo, hi) {
                return Some(next);
            }
        }
        c = next;
    }
    None
}

// The right side of the first sentence that fits, and the values of its variables.
pub fn choose(
    program: &[u8],
    body: Cursor,
    arg: &[u8],
    binds: &mut [usize; kinds::BINDS],
) -> Option<Side>
    requires at_in_bounds { body.at ≤ length program.now }
    requires whole { Whole (rest_of program.now body.at) }
    requires body { Body (rest_of program.now body.at) }
    requires balanced { Balanced 0 (elements arg.now) }
    ensures { Chosen program.now arg.now binds.new (apply (sentences (rest_of program.now body.at)) (elements arg.now)) result }
{
    let mut c = body;
    loop {
        if kind_at(program, c) == kinds::FUNCTION_END {
            return None;
        }
        let equals = seek_kind(program, c, kinds::EQUALS);
        let right = equals.read_as(program, kinds::EQUALS);
        let end = seek_kind(program, right.next, kinds::SENTENCE_END);
        let next = end.read_as(program, kinds::SENTENCE_END);
        let at = c.at;
        let mid = equals.at;
        if matching::match_left(&program[at..mid], arg, binds) {
            return Some(Side {
                from: right.next.at,
                to: end.at,
            });
        }
        c = next.next;
    }
}

// Where the table has a function: by its name's number, so that only names 8,192 apart share a place.
fn slot_of(name: usize) -> usize
    ensures { (result ≡ slot_for name) × (result < 8192) }
{
    name % SPOTS
}

impl Index {
    // `length program ≤ 65536` is a clause, here and below: a place of a header goes into a u16.
    // Reads the element at a cursor into the table, where a header keeps the place that it came first to; hands the moved cursor back.
    fn read_one(&mut self, program: &[u8], c: Cursor) -> Cursor
        requires { Indexed program.now c.at self.old.spots × (c.at < length program.now) × (length program.now ≤ 65536) }
        ensures { Indexed program.now result.at self.new.spots × (c.at < result.at) }
    {
        let passed = c.pass(program);
        if passed.kind != kinds::HEADER {
            return passed.next;
        }
        let header = c.read_as(program, kinds::HEADER);
        let slot = slot_of(header.number as usize);
        if self.spots[slot] == 0 {
            self.spots[slot] = (c.at + 1) as u16;
        }
        passed.next
    }

    // Reads on until the table has something in a place, or the program ends.
    fn read_to(&mut self, program: &[u8], slot: usize)
        requires { Cache program.now self.old × (slot < 8192) × (length program.now ≤ 65536) }
        ensures { Cache program.now self.new × (get_or self.new.spots slot 0 ≡ 0 → self.new.read ≡ length program.now) }
    {
        let mut c = Cursor { at: self.read };
        while c.at < program.len() && self.spots[slot] == 0 {
            c = self.read_one(program, c);
        }
        self.read = c.at;
    }

    // The body of the first function with that name, if there is one; the table is filled as far as it is needed.
    pub fn look_up(&mut self, program: &[u8], lo: u8, hi: u8) -> Option<Cursor>
        requires program { Program program.now }
        requires program_len_bound { length program.now ≤ 65536 }
        requires cache { Cache program.now self.old }
        ensures { Cached program.now lo hi result self.new }
    {
        let slot = slot_of(usize::from(u16::from_le_bytes([lo, hi])));
        self.read_to(program, slot);
        let place = self.spots[slot] as usize;
        if place == 0 {
            return None;
        }
        let c = Cursor { at: place - 1 };
        let first = c.read_as(program, kinds::HEADER);
        if is_name(first.number, lo, hi) {
            return Some(first.next);
        }
        // another name came first
        find(program, lo, hi)
    }
}
