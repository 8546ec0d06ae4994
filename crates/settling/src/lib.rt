// The elements of a left side one by one: the slot of a variable, where the only value that is possible ends, a value noted. The values go into a
// lent table of 96 numbers: of a variable's slot, the start of its value in the argument, and 48 further on its end. So `match_left` promises it.
#![tactic(auto)]

ghost use Rattle.std.specs.Prelude.{◌≡◌, ℕ, false, true, ◌<◌, ◌≤◌, length, MatchOption, IfSome, Some};
ghost use Rattle.meaning.specs.Elements.{elements};
ghost use Rattle.elements.specs.Reading.{Proper};
ghost use Rattle.kinds.specs.Slots.{within, value_of};
ghost use Rattle.settling.specs.Values.{LeftAt, ItemAt, ValueEnd, Placed, Meant, Open, Table, Single, OnlyEnd, Settling, Settled, FreshE};

use elements::Cursor;
use kinds::Slots;

// An element of a left side: its bytes, its slot if it is a variable, and the place behind it.
#[derive(Clone, Copy)]
pub struct Item<'a> {
    pub bytes: &'a [u8],
    pub slot: Option<usize>,
    pub next: usize,
}

// An argument, the table of values in it, and the settled slots: those that have a value.
#[derive(Clone, Copy)]
pub struct Values<'a> {
    pub arg: &'a [u8],
    pub binds: &'a [usize],
    pub settled: Slots,
}

// The element of a left side at a place.
pub fn item_at(left: &[u8], at: usize) -> Item<'_>
    requires { LeftAt left.now at }
    ensures { ItemAt left.now at result.bytes.now result.slot result.next }
{
    let passed = Cursor { at }.pass(left);
    let slot = if passed.kind < kinds::S_VARIABLE {
        None
    } else {
        Some(kinds::slot(passed.kind, left[at + 1]))
    };
    let next = passed.next.at;
    Item {
        bytes: &left[at..next],
        slot,
        next,
    }
}

// Past an element, if it stands at a place of the argument: its few bytes are compared.
// `at ≤ length arg` is a clause: the place is another at each step, and a type for it would be taken apart at once.
fn element_end(bytes: &[u8], arg: &[u8], at: usize) -> Option<usize>
    requires { Proper (elements bytes.now) × (at ≤ length arg.now) }
    ensures { ValueEnd (elements bytes.now) arg.now at result }
{
    let end = at + bytes.len();
    if end <= arg.len() && bytes == &arg[at..end] {
        Some(end)
    } else {
        None
    }
}

// Past a value, if it stands at a place of the argument.
// Not as element_end: values are compared element by element until change request Five, which is to change it alone.
fn value_end(value: &[u8], arg: &[u8], at: usize) -> Option<usize>
    requires { Proper (elements value.now) × (at ≤ length arg.now) }
    ensures { ValueEnd (elements value.now) arg.now at result }
{
    let n = value.len();
    if arg.len() - at < n {
        return None;
    }
    let end = at + n;
    if elements::equal_values(value, &arg[at..end]) {
        Some(end)
    } else {
        None
    }
}

impl<'a> Values<'a> {
    // The value in a slot, if it is settled.
    fn value(self, slot: usize) -> Option<&'a [u8]>
        requires { Table self.arg.now self.binds.now self.settled.bits × (slot < 48) }
        ensures { MatchOption result (within self.entry.settled.bits slot ≡ false) (λ v. (within self.entry.settled.bits slot ≡ true) × (v.now ≡ value_of self.entry.arg.now self.entry.binds.now slot)) }
    {
        if self.settled.has(slot) {
            let from = self.binds[slot];
            let to = self.binds[slot + kinds::SLOTS];
            Some(&self.arg[from..to])
        } else {
            None
        }
    }

    // What an element stands for, if that is known.
    pub fn meant(self, item: Item<'a>) -> Option<&'a [u8]>
        requires { Placed item.bytes.now item.slot × Table self.arg.now self.binds.now self.settled.bits }
        ensures { MatchOption result (Open item.entry.slot self.entry.settled.bits) (λ v. Meant item.entry.bytes.now item.entry.slot self.entry.arg.now self.entry.binds.now self.entry.settled.bits v.now) }
    {
        match item.slot {
            Some(slot) => self.value(slot),
            None => Some(item.bytes),
        }
    }

    // Past what an element stands for, where only one value is possible: anything but an e-variable without a value.
    pub fn only_end(self, item: Item<'a>, at: usize) -> Option<usize>
        requires { Single item.bytes.now item.slot self.arg.now at self.binds.now self.settled.bits }
        ensures { OnlyEnd item.entry.bytes.now self.entry.arg.now at self.entry.binds.now self.entry.settled.bits result }
    {
        // Whether that is one element: it is no variable, or an s-variable.
        let one = match item.slot {
            Some(slot) => slot < kinds::T_SLOTS,
            None => true,
        };
        match self.meant(item) {
            Some(value) if one => element_end(value, self.arg, at),
            Some(value) => value_end(value, self.arg, at),
            None if one => elements::symbol_end(self.arg, at),
            None => elements::term_end(self.arg, at),
        }
    }
}

// Notes a variable's value, if it has none yet, and answers the settled slots.
pub fn settle(
    binds: &mut [usize],
    settled: Slots,
    slot: Option<usize>,
    from: usize,
    to: usize,
) -> Slots
    requires { Settling binds.old slot }
    ensures { Settled binds.old settled.bits slot from to binds.new result.bits }
{
    match slot {
        Some(slot) if !settled.has(slot) => {
            binds[slot] = from;
            binds[slot + kinds::SLOTS] = to;
            settled.with(slot)
        }
        _ => settled,
    }
}

// The slot of an e-variable without a value.
pub fn fresh_e(slot: Option<usize>, settled: Slots) -> Option<usize>
    requires { IfSome slot (λ s. s < 48) }
    ensures { MatchOption result ((s : ℕ) → slot ≡ Some s → FreshE s settled.bits → ⊥) (λ s. (slot ≡ Some s) × FreshE s settled.bits) }
{
    match slot {
        Some(slot) if kinds::E_SLOTS <= slot && !settled.has(slot) => Some(slot),
        _ => None,
    }
}
