// One element put through the check: which of the tests it fails first, and where reading stands after it.
#![tactic(auto)]

ghost use Rattle.std.specs.Prelude.{◌≡◌, true, false, ◌||◌, List, ℕ, ◌+◌, ◌^◌, ◌≤◌, ◌<◌, length, leb, ltb};
ghost use Rattle.meaning.specs.Elements.{Element as Bytes};
ghost use Rattle.meaning.specs.Goodness.{at, span, stands, implies, ends_side, top, paired, under_limit, first_failing, sided, count_after, may_end};
ghost use Rattle.kinds.specs.Stacks.{stack as opened};
ghost use Rattle.elements.specs.Bytes.{kind_of, number_of};
ghost use Rattle.taking.specs.Standing.{part_of, next_of, fault_of, stack_after, depth_after, fresh, limits_of, tests_of, Movable, moved_to, Ready, Steps};

use elements::Element;
use kinds::Slots;

// Where reading stands: the part, the open brackets, the elements of this side so far, and the left side's variables, as a set and their number.
// Each is a whole word: with an enum for the part the compiler copies the state piece by piece, and a check takes up to five times as long.
#[derive(Clone, Copy)]
pub struct State {
    pub part: usize,
    pub depth: usize,
    pub count: usize,
    pub set: Slots,
    pub number: usize,
}

impl State {
    // Before the first element of a program.
    pub const BEGUN: State = State {
        part: OUTSIDE,
        depth: 0,
        count: 0,
        set: Slots::NONE,
        number: 0,
    };
}

// Why an element is bad: the first test of the definition that it fails. A read element has a known kind and its whole body, so it passes
// the first two.
#[derive(Clone, Copy, Debug, PartialEq, Eq)]
pub enum Fault {
    // 3: its kind cannot stand there.
    Misplaced,
    // 4: a variable number exceeds 15.
    NumberTooHigh,
    // 5: a closing bracket has no fitting open one, or a side ends with a bracket open.
    Unpaired,
    // 6: the side has no room for it, or it is a 17th different variable.
    TooMany,
    // 7: a right-side variable absent from the left.
    Unknown,
}

// The parts that the code names, by their place in the definition: numbers, as the state needs.
pub const FIELD: usize = 0;

pub const OUTSIDE: usize = 1;

pub const START: usize = 2;

pub const LEFT: usize = 3;

pub const RIGHT: usize = 4;

pub const AFTER: usize = 5;

// What may stand where, and the part to which it leads, or 7 for none: a row for each part, a digit for each of 32 kinds. Kinds 10 to 1F
// cannot stand yet.
// 7 and no Option: the parts are numbers (see State), a row of digits is a row of the table, and next_part alone reads it.
static NEXT: [u8; 224] = *b"\
    70000000777777777777777777777777\
    77777777777772767777777777777777\
    73333377333477777777777777777777\
    73333377333477777777777777777777\
    74444444444757777777777777777777\
    73333377333477177777777777777777\
    77777777777777777777777777777777";

// The part to which an element leads, if it can stand.
pub fn next_part(part: usize, kind: u8) -> Option<usize>
    requires { part < 7 }
    ensures { result ≡ next_of (part_of part) kind }
{
    if 31 < kind {
        return None;
    }
    let to = (NEXT[part * 32 + (kind as usize)] - b'0') as usize;
    if to < 7 { Some(to) } else { None }
}

pub fn between(low: usize, high: usize, n: usize) -> bool
    ensures { result ≡ span low high n }
{
    low <= n && n <= high
}

pub fn ends_side(kind: u8) -> bool
    ensures { result ≡ ends_side kind }
{
    kind == kinds::EQUALS || kind == kinds::SENTENCE_END
}

// The latest open bracket, or 0, as the definition `top` has it: so one comparison tells another bracket and none.
// The depth goes by value in State and the stack is lent, so that the one fits the other is a clause, here and below.
pub fn top_of(stack: &[u8], depth: usize) -> u8
    requires { depth ≤ length stack.now }
    ensures { result ≡ top (opened depth stack.now) }
{
    if depth == 0 { 0 } else { stack[depth - 1] }
}

// A closing bracket has its own open before it, and a side ends with none open.
pub fn is_paired(kind: u8, depth: usize, stack: &[u8]) -> bool
    requires { depth ≤ length stack.now }
    ensures { result ≡ paired kind (opened depth stack.now) }
{
    match kind {
        kinds::CLOSE | kinds::RETURN => top_of(stack, depth) == kind - 1,
        _ => depth == 0 || !ends_side(kind),
    }
}

// How many elements a side of a sentence may have.
pub fn limit_of(part: usize) -> usize
    ensures { (n : ℕ) → (part ≡ 0 → ⊥) → under_limit (part_of part) n ≡ ltb n result }
{
    if part == RIGHT { 400 } else { 100 }
}

// The end of a side is no element of it.
fn has_room(part: usize, kind: u8, count: usize) -> bool
    ensures { result ≡ (ends_side kind || under_limit (part_of part) count) }
{
    if ends_side(kind) {
        return true;
    }
    part == FIELD || count < limit_of(part)
}

fn is_numbered(kind: u8, number: u32) -> bool
    ensures { result ≡ implies (span 8 10 kind) (leb number 15) }
{
    if kinds::is_variable(kind) {
        number <= 15
    } else {
        true
    }
}

// A variable that has not stood on the left side so far.
pub fn is_fresh(set: Slots, kind: u8, number: u32) -> bool
    ensures { result ≡ fresh set.bits kind number }
{
    if !kinds::is_variable(kind) {
        return false;
    }
    if 15 < number {
        return false;
    }
    !set.has(kinds::slot(kind, number as u8))
}

// The last two tests: the limits, and that the left side has the variable.
fn test_limits(state: State, kind: u8, new: bool) -> Result<(), Fault>
    ensures { fault_of result ≡ first_failing 6 (limits_of state kind new) }
{
    if !has_room(state.part, kind, state.count) {
        return Err(Fault::TooMany);
    }
    if !new {
        return Ok(());
    }
    if state.part == RIGHT {
        return Err(Fault::Unknown);
    }
    if state.number < 16 {
        Ok(())
    } else {
        Err(Fault::TooMany)
    }
}

// The tests of an element that can stand, in the order of the definition.
fn test(state: State, kind: u8, number: u32, new: bool, stack: &[u8]) -> Result<(), Fault>
    requires { (stands (part_of state.part) kind ≡ true) × (state.depth ≤ length stack.now) }
    ensures { fault_of result ≡ first_failing 3 (tests_of state kind number (opened state.depth stack.now) new) }
{
    if !is_numbered(kind, number) {
        return Err(Fault::NumberTooHigh);
    }
    if !is_paired(kind, state.depth, stack) {
        return Err(Fault::Unpaired);
    }
    test_limits(state, kind, new)
}

// Puts an opening bracket on the stack; says how many are open then.
pub fn brackets_after(stack: &mut [u8], depth: usize, kind: u8) -> usize
    requires { (depth < length stack.old) × (paired kind (opened depth stack.old) ≡ true) }
    ensures { (result ≡ depth_after kind depth) × (stack.new ≡ stack_after kind depth stack.old) }
{
    match kind {
        kinds::OPEN | kinds::CALL => {
            stack[depth] = kind;
            depth + 1
        }
        kinds::CLOSE | kinds::RETURN => depth - 1,
        _ => depth,
    }
}

fn is_side(part: usize) -> bool
    ensures { result ≡ sided (part_of part) }
{
    part == FIELD || between(LEFT, RIGHT, part)
}

fn count_after(to: usize, kind: u8, count: usize) -> usize
    requires { ends_side kind ≡ false → count + 1 < 2 ^ 64 }
    ensures { result ≡ count_after (part_of to) kind count }
{
    if ends_side(kind) {
        return 0;
    }
    if is_side(to) { count + 1 } else { 0 }
}

// Only the sides of a sentence keep its variables.
pub fn state_after(
    mut state: State,
    kind: u8,
    number: u32,
    to: usize,
    depth: usize,
    new: bool,
) -> State
    requires { Movable state kind number new }
    ensures { result ≡ moved_to state kind number to depth new }
{
    state.part = to;
    state.depth = depth;
    state.count = count_after(to, kind, state.count);
    if !between(LEFT, RIGHT, to) {
        state.set = Slots::NONE;
        state.number = 0;
        return state;
    }
    if new {
        state.set = state.set.with(kinds::slot(kind, number as u8));
        state.number += 1;
    }
    state
}

// Puts one element through the check; a bad one changes nothing.
// Kind and number are taken out of the element once, here, so that no test has to match it again.
pub fn take(state: State, e: Element, stack: &mut [u8]) -> Result<State, Fault>
    requires { Ready state stack.old }
    ensures { Steps state (kind_of e) (number_of e) stack.old result stack.new }
{
    let kind = elements::kind_of(e);
    let number = elements::number_of(e);
    let to = next_part(state.part, kind).ok_or(Fault::Misplaced)?;
    let new = is_fresh(state.set, kind, number);
    test(state, kind, number, new, stack)?;
    let depth = brackets_after(stack, state.depth, kind);
    Ok(state_after(state, kind, number, to, depth, new))
}

// The bytes may end behind 0F, and in a field with no bracket open.
pub fn may_end(state: State) -> bool
    ensures { (st : List ℕ) (vs : List Bytes) → result ≡ may_end (at (part_of state.part) (opened state.depth st) state.count vs) }
{
    if state.part == FIELD {
        return state.depth == 0;
    }
    5 < state.part
}
