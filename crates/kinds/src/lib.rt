// Kinds and what they fix: the length of an element, the slot of a variable; and sets of slots as the bits of a number.
#![tactic(auto)]

ghost use Rattle.std.specs.Prelude.{◌≡◌, ◌∷◌, [], ◌+◌, ◌≤◌, ◌<◌};
ghost use Rattle.meaning.specs.Elements.{body, is_symbol, is_variable};
ghost use Rattle.kinds.specs.Slots.{slot_of, within, joined};

// The kinds, as document 01's table has them: bytes of the format, matched as they stand. The enum of them is `elements::Element`.
pub const CHARACTER: u8 = 1;

pub const NAME: u8 = 2;

pub const MACRODIGIT: u8 = 3;

pub const OPEN: u8 = 4;

pub const CLOSE: u8 = 5;

pub const CALL: u8 = 6;

pub const RETURN: u8 = 7;

pub const S_VARIABLE: u8 = 8;

pub const T_VARIABLE: u8 = 9;

pub const E_VARIABLE: u8 = 10;

pub const EQUALS: u8 = 11;

pub const SENTENCE_END: u8 = 12;

pub const HEADER: u8 = 13;

pub const FUNCTION_END: u8 = 14;

pub const PROGRAM_END: u8 = 15;

// Where the slots of t-variables and of e-variables begin, how many slots there are, and how long a table of values' starts and ends is.
pub const T_SLOTS: usize = 16;

pub const E_SLOTS: usize = 32;

pub const SLOTS: usize = 48;

pub const BINDS: usize = 96;

// The lengths of elements, by kind from 00 on.
static LENGTHS: [u8; 16] = [1, 2, 3, 5, 1, 1, 3, 1, 2, 2, 2, 1, 1, 3, 1, 1];

// The length of an element of kind k: the kind's byte and its body.
pub fn length_of(k: u8) -> usize
    ensures { (result ≡ 1 + body k) × (result ≤ 5) }
{
    if k <= PROGRAM_END {
        LENGTHS[k as usize] as usize
    } else {
        1
    }
}

pub fn is_symbol(kind: u8) -> bool
    ensures { result ≡ is_symbol (kind ∷ []) }
{
    CHARACTER <= kind && kind <= MACRODIGIT
}

pub fn is_variable(kind: u8) -> bool
    ensures { result ≡ is_variable (kind ∷ []) }
{
    S_VARIABLE <= kind && kind <= E_VARIABLE
}

// The slot of a variable: s-variables from 0 on, t-variables from 16 on, e-variables from 32 on.
pub fn slot(kind: u8, number: u8) -> usize
    requires { (8 ≤ kind) × (kind ≤ 10) × (number ≤ 15) }
    ensures { (result ≡ slot_of kind number) × (result < 48) }
{
    usize::from(kind - S_VARIABLE) * 16 + usize::from(number)
}

// A set of slots, as the bits of a number.
#[derive(Clone, Copy, PartialEq, Eq)]
pub struct Slots {
    pub bits: u64,
}

impl Slots {
    // No slot at all.
    pub const NONE: Slots = Slots { bits: 0 };

    // That a slot is below 48 is a clause, here and in settling: a type for it would be taken apart at each table.
    // Whether a slot is in the set.
    pub fn has(self, slot: usize) -> bool
        requires { slot < 48 }
        ensures { result ≡ within self.bits slot }
    {
        (self.bits >> slot) % 2 == 1
    }

    // The set with a slot more.
    pub fn with(self, slot: usize) -> Slots
        requires { slot < 48 }
        ensures { result.bits ≡ joined self.bits slot }
    {
        Slots {
            bits: self.bits | 1 << slot,
        }
    }
}
