// Where an e-variable's value can end, as far as what comes next in the left side says.
#![tactic(auto)]

ghost use Rattle.std.specs.Prelude.{◌≡◌, false, ℕ, ◌≤◌, length, slice_get, Some};
ghost use Rattle.meaning.specs.Elements.{elements};
ghost use Rattle.elements.specs.Reading.{Proper, Level};
ghost use Rattle.settling.specs.Values.{LeftAt, Table, Ready, FreshE};
ghost use Rattle.foreseeing.specs.Foresight.{Window, Standing, Behind, Ending, Usable, Sound, MayEnd, Run, NextEnd};

use elements::Cursor;
use settling::Values;

// Where an e-variable's value can end: between two places, and where a `first` is known only before an element of that kind, with `second` and
// `third` as the bytes behind its kind if they are known too.
#[derive(Clone, Copy)]
pub struct Ahead {
    first: Option<u8>,
    second: Option<u8>,
    third: Option<u8>,
    earliest: usize,
    latest: usize,
}

fn between(earliest: usize, latest: usize) -> Ahead
    ensures { Window result earliest latest }
{
    Ahead {
        first: None,
        second: None,
        third: None,
        earliest,
        latest,
    }
}

// A byte of a value, if it has so many.
fn byte_of(value: &[u8], i: usize) -> Option<u8>
    ensures { result ≡ slice_get value.now i }
{
    value.get(i).copied()
}

// Where what comes next is a value: before its first bytes.
fn before_value(value: &[u8], arg: &[u8]) -> Ahead
    requires { Proper (elements value.now) }
    ensures { Sound result arg.now (Standing value.now false arg.now) }
{
    Ahead {
        first: byte_of(value, 0),
        second: byte_of(value, 1),
        third: byte_of(value, 2),
        earliest: 0,
        latest: arg.len(),
    }
}

// Where what comes next is an opening bracket and then left[j..]. In a table of bracketed entries the key stands there.
fn before_bracket(left: &[u8], j: usize, values: Values) -> Ahead
    requires { LeftAt left.now j × Table values.arg.now values.binds.now values.settled.bits }
    ensures { Sound result values.entry.arg.now (Behind left.now j values.entry.arg.now values.entry.binds.now values.entry.settled.bits) }
{
    let value = values.meant(settling::item_at(left, j)).unwrap_or(&[]);
    Ahead {
        first: Some(kinds::OPEN),
        second: byte_of(value, 0),
        third: byte_of(value, 1),
        earliest: 0,
        latest: values.arg.len(),
    }
}

// Where the value of the e-variable in the slot `own` can end that is followed by left[j..].
pub fn foresee(left: &[u8], j: usize, values: Values, at: usize, own: usize) -> Ahead
    requires { LeftAt left.now j × Ready left.now j values.arg.now at values.binds.now values.settled.bits × FreshE own values.settled.bits }
    ensures { Sound result values.entry.arg.now (Ending left.now j values.entry.arg.now at values.entry.binds.now values.entry.settled.bits own) }
{
    let item = settling::item_at(left, j);
    if left[j] == kinds::OPEN {
        return before_bracket(left, item.next, values);
    }
    let last = item.next == left.len();
    let end = values.arg.len();
    if let Some(value) = values.meant(item) {
        // The last of all: where as many bytes are left as it has.
        if last {
            let only = end.saturating_sub(value.len());
            return between(only, only);
        }
        return before_value(value, values.arg);
    }
    match item.slot {
        // Twice the same value: two halves.
        Some(slot) if last && slot == own => {
            let half = (end - at) / 2;
            between(end - half, at + half)
        }
        // A symbol has five bytes at most.
        Some(slot) if last && slot < kinds::T_SLOTS => between(end.saturating_sub(5), end),
        _ => between(0, end),
    }
}

// Whether a value can end at a place. Where a first byte is known the two places are the argument's ends, and not looked at.
fn can_end(w: Ahead, arg: &[u8], at: usize) -> bool
    ensures { MayEnd w arg.now at result }
{
    let Some(first) = w.first else {
        return w.earliest <= at && at <= w.latest;
    };
    if arg.len() <= at || arg[at] != first {
        return false;
    }
    // Near the end of the argument no byte is compared.
    if arg.len() - at < 3 {
        return true;
    }
    if let Some(second) = w.second
        && arg[at + 1] != second
    {
        return false;
    }
    match w.third {
        Some(third) => arg[at + 2] == third,
        None => true,
    }
}

// The code of the characters before which a value can end, or one that no character has.
fn stop_of(w: Ahead) -> u16
    ensures { (k : ℕ) → w.first ≡ Some 1 → w.second ≡ Some k → result ≡ k }
{
    match (w.first, w.second) {
        (Some(kinds::CHARACTER), Some(code)) => code as u16,
        _ => 256,
    }
}

// Up to where characters other than that one can be passed over.
fn run_end(w: Ahead, arg: &[u8], at: usize) -> usize
    requires { w.earliest ≤ length arg.now × (at ≤ length arg.now) }
    ensures { Run w arg.now at result }
{
    match w.first {
        Some(_) => arg.len(),
        None if at < w.earliest => w.earliest,
        None if w.latest < at => arg.len(),
        None => at,
    }
}

// The first place from `at` on at which a value can end.
pub fn next_end(w: Ahead, arg: &[u8], at: usize) -> Option<usize>
    requires { Level arg.now at × Usable w arg.now }
    ensures { NextEnd w arg.now at result }
{
    let stop = stop_of(w);
    let mut i = at;
    while !can_end(w, arg, i) {
        let next = elements::term_end(arg, i)?;
        i = Cursor { at: next }
            .past_characters(arg, stop, run_end(w, arg, next))
            .at;
    }
    Some(i)
}
