// The face for C: run, the desk's call, the pointer and reading over plain numbers. A slice is a pointer and a length there.
#![tactic(auto)]

ghost use Rattle.std.specs.Prelude.{◌≡◌, List, ◌++◌, ℕ, ◌≤◌, length, drop};
ghost use Rattle.meaning.specs.Pointer.{pointer};
ghost use Rattle.machine.specs.Codes.{code_of};
ghost use Rattle.embed.specs.Face.{lent, run_face, desk_face, pointer_face, read_face};

use desk::Record;
use machine::{Answer, Code};

// The first N of some numbers.
fn write<const N: usize>(numbers: &mut [u64], first: [u64; N])
    requires { N ≤ length numbers.old }
    ensures { numbers.new ≡ first.entry ++ drop N numbers.old }
{
    numbers[..N].copy_from_slice(&first);
}

// Writes code, steps, used length and place into the answer; touches nothing where that has no room for four.
#[unsafe(no_mangle)]
pub extern "C" fn odolzagi_run(
    program: &[u8],
    field: &mut [u8],
    used: usize,
    scratch: &mut [u8],
    budget: u32,
    answer: &mut [u64],
)
    ensures { run_face program.now field.old used scratch.old budget answer.old ≡ lent answer.new field.new scratch.new }
{
    if answer.len() < 4 {
        return;
    }
    let ran = machine::run(program, field, used, scratch, budget);
    write(
        answer,
        [
            machine::number(ran.code) as u64,
            ran.steps as u64,
            ran.used as u64,
            ran.place as u64,
        ],
    );
}

// One call of the desk on a record of used length, code and place; touches nothing where it has no room for three.
#[unsafe(no_mangle)]
pub extern "C" fn odolzagi_desk(
    noted: &mut [u64],
    program: &[u8],
    field: &mut [u8],
    scratch: &mut [u8],
)
    ensures { desk_face noted.old program.now field.old scratch.old ≡ lent noted.new field.new scratch.new }
{
    if noted.len() < 3 {
        return;
    }
    if noted[1] != 1 {
        return;
    }
    let old = Record {
        used: noted[0] as usize,
        code: Code::Paused,
        place: noted[2] as usize,
    };
    let new = desk::call(old, program, field, scratch);
    write(
        noted,
        [
            new.used as u64,
            machine::number(new.code) as u64,
            new.place as u64,
        ],
    );
}

// The code that points where a number does; a number that is no code points at nothing, as `Done` does. That is an answer and no error, so
// a TryFrom would be no plainer.
fn coded(number: u64) -> Code
    ensures { (used place : ℕ) → (p f : List ℕ) → pointer (code_of result) used place p f ≡ pointer number used place p f }
{
    match number {
        2 => Code::NoMatch,
        3 => Code::NoFunction,
        4 => Code::NoRoom,
        6 => Code::BadProgram,
        7 => Code::BadField,
        _ => Code::Done,
    }
}

// How long the pointer's part is. The answer is built from plain numbers, so no From would be plainer; its steps, which no part depends on, are 0.
fn part_length<'a>(
    code: u64,
    used: usize,
    place: usize,
    program: &'a [u8],
    field: &'a [u8],
) -> usize
    ensures { result ≡ length (pointer code used place program.now field.now) }
{
    let answer = Answer {
        code: coded(code),
        steps: 0,
        used,
        place,
    };
    desk::pointer(answer, program, field).len()
}

// Writes which slice an answer speaks of, where its part begins and how long it is; touches nothing where there is no room for three.
#[unsafe(no_mangle)]
pub extern "C" fn odolzagi_pointer<'a>(
    code: u64,
    used: usize,
    place: usize,
    program: &'a [u8],
    field: &'a [u8],
    part: &mut [u64],
)
    ensures { part.new ≡ pointer_face code used place program.now field.now part.old }
{
    if part.len() < 3 {
        return;
    }
    let length = part_length(code, used, place, program, field);
    if length == 0 {
        write(part, [0, 0, 0]);
        return;
    }
    if code == 6 {
        write(part, [1, place as u64, length as u64]);
        return;
    }
    write(part, [2, place as u64, length as u64]);
}

// Writes code, program bytes, list bytes and place into the numbers; touches nothing where they have no room for four.
#[unsafe(no_mangle)]
pub extern "C" fn odolzagi_read(
    text: &[u8],
    program: &mut [u8],
    names: &mut [u8],
    numbers: &mut [u64],
)
    ensures { read_face text.now program.old names.old numbers.old ≡ lent numbers.new program.new names.new }
{
    if numbers.len() < 4 {
        return;
    }
    let read = reading::read(text, program, names);
    write(
        numbers,
        [
            reading::number(read.code) as u64,
            read.program as u64,
            read.names as u64,
            read.place as u64,
        ],
    );
}
