// Whether bytes are a good field, and if not, where the first bad element stands.
#![tactic(auto)]

ghost use Rattle.std.specs.Prelude.{◌≡◌, ◌≤◌, ◌<◌, length, replicate};
ghost use Rattle.meaning.specs.Goodness.{bad_field};
ghost use Rattle.elements.specs.Reading.{Characters};
ghost use Rattle.checking_fields.specs.Answers.{check_of, field_check, scratch_after};
ghost use Rattle.checking_fields.specs.Fields.{Closed, Turned};

use elements::{Cursor, Element};

// Why a field is refused: the place of its first bad element; or that the scratch is shorter than the field.
#[derive(Clone, Copy, Debug, PartialEq, Eq)]
pub enum FieldFault {
    Bad(usize),
    Short,
}

// How many brackets are open behind the closing of the latest, which has to be of the kind `opening`.
// The depth goes by value and the stack is lent, so that the one fits the other is a clause, here and below.
fn closed(stack: &[u8], depth: usize, opening: u8) -> Option<usize>
    requires { (depth ≤ length stack.now) × (1 ≤ opening) }
    ensures { Closed stack.now depth opening result }
{
    if taking::top_of(stack, depth) == opening {
        Some(depth - 1)
    } else {
        None
    }
}

// How many brackets are open behind an element of a field, if it is good; they stand at the front of the stack.
fn depth_behind(x: Element, stack: &mut [u8], depth: usize) -> Option<usize>
    requires { depth < length stack.old }
    ensures { Turned x stack.old depth result stack.new }
{
    match x {
        Element::Character(_) | Element::Name(_) | Element::Macrodigit(_) => Some(depth),
        Element::Open => {
            stack[depth] = kinds::OPEN;
            Some(depth + 1)
        }
        Element::Close => closed(stack, depth, kinds::OPEN),
        Element::Call(_) => {
            stack[depth] = kinds::CALL;
            Some(depth + 1)
        }
        Element::Return => closed(stack, depth, kinds::CALL),
        _ => None,
    }
}

// Where to go on behind an element: past the other characters of a run.
fn onward(x: Element, next: Cursor, field: &[u8]) -> Cursor
    ensures { Characters field.now 256 (length field.now) next.at result.at }
{
    match x {
        Element::Character(_) => next.past_characters(field, 256, field.len()),
        _ => next,
    }
}

// One pass over a field, which has no limits: of what came before only the open brackets count.
fn pass_field(field: &[u8], stack: &mut [u8]) -> Result<(), FieldFault>
    requires { length field.now ≤ length stack.old }
    ensures { result ≡ check_of (bad_field field.now) }
{
    let mut c = Cursor { at: 0 };
    let mut depth: usize = 0;
    while c.at < field.len() {
        let bad = Err(FieldFault::Bad(c.at));
        let Ok((x, next)) = c.read(field) else {
            return bad;
        };
        let Some(now) = depth_behind(x, stack, depth) else {
            return bad;
        };
        depth = now;
        c = onward(x, next, field);
    }
    if depth == 0 {
        Ok(())
    } else {
        Err(FieldFault::Bad(c.at))
    }
}

// A field may have as many brackets open as it has bytes, so they are kept in the scratch.
pub fn check_field(field: &[u8], scratch: &mut [u8]) -> Result<(), FieldFault>
    ensures { (result ≡ field_check field.now scratch.old) × (scratch.new ≡ scratch_after field.now scratch.old) }
{
    if scratch.len() < field.len() {
        return Err(FieldFault::Short);
    }
    let found = pass_field(field, scratch);
    moving::clear(scratch, 0, scratch.len());
    found
}
