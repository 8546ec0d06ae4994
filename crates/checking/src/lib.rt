// Whether bytes are a good program, and if not, where the first bad element stands.
#![tactic(auto)]

ghost use Rattle.std.specs.Prelude.{◌≡◌, true, List, ℕ, ◌≤◌, ◌<◌, length, Some, IfSome};
ghost use Rattle.meaning.specs.Goodness.{span, bad_program};
ghost use Rattle.elements.specs.Bytes.{kind_of, number_of};
ghost use Rattle.taking.specs.Standing.{Ready};
ghost use Rattle.checking.specs.Answers.{check_of};
ghost use Rattle.checking.specs.Passing.{HasRoom, Tried, Onward};

use elements::{Cursor, Element};
use taking::State;

// How far reading came, and where it stands there.
#[derive(Clone, Copy)]
struct Reached {
    at: Cursor,
    state: State,
}

// Passes a symbol, which can stand in every side. That the side has room is a clause here and below: not every state has it.
fn pass_symbol(mut state: State) -> State
    requires { HasRoom state }
    ensures { (st : List ℕ) (k n : ℕ) → Ready state st → 1 ≤ k → k ≤ 3 → Tried state k n st (Some result) st }
{
    state.count += 1;
    state
}

// Passes a bracket that surely can stand in this side.
fn pass_bracket(mut state: State, kind: u8, stack: &mut [u8]) -> Option<State>
    requires { HasRoom state × Ready state stack.old × (4 ≤ kind) × (kind ≤ 7) }
    ensures { (n : ℕ) → Tried state kind n stack.old result stack.new }
{
    if kinds::CLOSE < kind {
        if state.part != taking::RIGHT {
            return None;
        }
    }
    if !taking::is_paired(kind, state.depth, stack) {
        return None;
    }
    state.depth = taking::brackets_after(stack, state.depth, kind);
    state.count += 1;
    Some(state)
}

// Passes a variable that surely can stand in this side.
fn pass_variable(mut state: State, kind: u8, number: u32) -> Option<State>
    requires { HasRoom state × (8 ≤ kind) × (kind ≤ 10) }
    ensures { (st : List ℕ) → Ready state st → Tried state kind number st result st }
{
    if 15 < number {
        return None;
    }
    state.count += 1;
    if !taking::is_fresh(state.set, kind, number) {
        return Some(state);
    }
    if state.part == taking::RIGHT {
        return None;
    }
    if 15 < state.number {
        return None;
    }
    state.set = state.set.with(kinds::slot(kind, number as u8));
    state.number += 1;
    Some(state)
}

// Passes an element that surely can stand in this side; where that is not sure, `take` has to look.
fn pass_element(state: State, e: Element, stack: &mut [u8]) -> Option<State>
    requires { HasRoom state × Ready state stack.old }
    ensures { Tried state (kind_of e) (number_of e) stack.old result stack.new }
{
    match e {
        Element::Character(_) | Element::Name(_) | Element::Macrodigit(_) => {
            Some(pass_symbol(state))
        }
        Element::Open => pass_bracket(state, kinds::OPEN, stack),
        Element::Close => pass_bracket(state, kinds::CLOSE, stack),
        Element::Call(_) => pass_bracket(state, kinds::CALL, stack),
        Element::Return => pass_bracket(state, kinds::RETURN, stack),
        Element::SVariable(n) => pass_variable(state, kinds::S_VARIABLE, n),
        Element::TVariable(n) => pass_variable(state, kinds::T_VARIABLE, n),
        Element::EVariable(n) => pass_variable(state, kinds::E_VARIABLE, n),
        _ => None,
    }
}

// Passes the elements of a side that surely are good, and leaves the others to `take`.
fn pass_side(bytes: &[u8], from: Cursor, start: State, stack: &mut [u8]) -> Reached
    requires { (span 3 4 start.part ≡ true) × Ready start stack.old × (from.at ≤ length bytes.now) }
    ensures { (from.at ≤ result.at.at) × Onward bytes.now from.at start stack.old result.at.at result.state stack.new }
{
    let limit = taking::limit_of(start.part);
    let mut at = from;
    let mut state = start;
    while state.count < limit {
        let Ok((e, next)) = at.read(bytes) else {
            return Reached { at, state };
        };
        let Some(passed) = pass_element(state, e, stack) else {
            return Reached { at, state };
        };
        state = passed;
        at = next;
    }
    Reached { at, state }
}

// Passes the end of a side, if it may end here.
fn pass_end(bytes: &[u8], at: Cursor, state: State) -> Option<Reached>
    requires { state.part < 7 }
    ensures { IfSome result (λ r. (at.at < r.at.at) × ((st : List ℕ) → Onward bytes.now at.at state st r.at.at r.state st)) }
{
    if bytes.len() <= at.at {
        return None;
    }
    let passed = at.pass(bytes);
    let kind = passed.kind;
    if !taking::ends_side(kind) {
        return None;
    }
    let to = taking::next_part(state.part, kind)?;
    if state.depth != 0 {
        return None;
    }
    Some(Reached {
        at: passed.next,
        state: taking::state_after(state, kind, 0, to, 0, false),
    })
}

// Before a sentence reading may as well be in its left side; 0E begins no sentence.
fn enter(bytes: &[u8], at: Cursor, mut state: State) -> State
    ensures { (st : List ℕ) → Onward bytes.now at.at state st at.at result st }
{
    if bytes.len() <= at.at {
        return state;
    }
    let passed = at.pass(bytes);
    if passed.kind == kinds::FUNCTION_END {
        return state;
    }
    if state.part == taking::START || state.part == taking::AFTER {
        state.part = taking::LEFT;
    }
    state
}

// Passes sentences, up to the first element that is not surely good.
fn pass_sentences(bytes: &[u8], from: Cursor, start: State, stack: &mut [u8]) -> Reached
    requires { Ready start stack.old × (0 < start.part) × (from.at ≤ length bytes.now) }
    ensures { (from.at ≤ result.at.at) × Onward bytes.now from.at start stack.old result.at.at result.state stack.new }
{
    let mut at = from;
    let mut state = enter(bytes, from, start);
    while taking::between(taking::LEFT, taking::RIGHT, state.part) {
        let side = pass_side(bytes, at, state, stack);
        let Some(end) = pass_end(bytes, side.at, side.state) else {
            return side;
        };
        at = end.at;
        state = enter(bytes, at, end.state);
    }
    Reached { at, state }
}

// One pass over a program. What surely is good is passed quickly; only `take` says that a read element is bad.
fn pass_program(program: &[u8], stack: &mut [u8]) -> Result<(), usize>
    requires { 400 ≤ length stack.old }
    ensures { result ≡ check_of (bad_program program.now) }
{
    let mut at = Cursor { at: 0 };
    let mut state = State::BEGUN;
    while at.at < program.len() {
        let bad = Err(at.at);
        let Ok((e, next)) = at.read(program) else {
            return bad;
        };
        let Ok(taken) = taking::take(state, e, stack) else {
            return bad;
        };
        let passed = pass_sentences(program, next, taken, stack);
        at = passed.at;
        state = passed.state;
    }
    if taking::may_end(state) {
        Ok(())
    } else {
        Err(at.at)
    }
}

// Whether a program is good; else the place of the first bad element.
pub fn check_program(program: &[u8]) -> Result<(), usize>
    ensures { result ≡ check_of (bad_program program.now) }
{
    // a right side has at most 400 elements
    let mut stack = [0u8; 400];
    pass_program(program, &mut stack)
}
