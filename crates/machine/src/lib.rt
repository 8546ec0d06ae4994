// The machine: any bytes, sizes and budget in, one of eight answers out.
#![tactic(auto)]

ghost use Rattle.std.specs.Prelude.{◌≡◌, ◌≤◌};
ghost use Rattle.meaning.specs.Machine.{sizes, machine, answer};
ghost use Rattle.running.specs.Running.{number_of, Checked};
ghost use Rattle.machine.specs.Codes.{code_of, Sized};

use checking_fields::FieldFault;
use running::{End, Ending};

// Why a run came to its end; the variants stand in the order of the paper's numbers, from 0 on.
#[derive(Clone, Copy, PartialEq, Eq)]
pub enum Code {
    Done,
    Paused,
    NoMatch,
    NoFunction,
    NoRoom,
    BadSizes,
    BadProgram,
    BadField,
}

#[derive(Clone, Copy)]
pub struct Answer {
    pub code: Code,
    pub steps: u32,
    pub used: usize,
    pub place: usize,
}

// The paper's number of a code.
pub fn number(code: Code) -> u8
    ensures { result ≡ code_of code }
{
    code as u8
}

impl From<End> for Code {
    ghost from_gives = { λ e c. code_of c ≡ number_of e };

    fn from(end: End) -> Code {
        match end {
            End::Done => Code::Done,
            End::Paused => Code::Paused,
            End::NoMatch => Code::NoMatch,
            End::NoFunction => Code::NoFunction,
            End::NoRoom => Code::NoRoom,
        }
    }
}

impl From<Ending> for Answer {
    ghost from_gives = { λ e a. (code_of a.code ≡ number_of e.end) × (a.steps ≡ e.steps) × (a.used ≡ e.used) × (a.place ≡ e.place) };

    fn from(ending: Ending) -> Answer {
        Answer {
            code: Code::from(ending.end),
            steps: ending.steps,
            used: ending.used,
            place: ending.place,
        }
    }
}

// A run that nothing refuses. The arguments of `run` go on as they are: a struct of them would be made once, and taken apart at once.
fn run_checked(
    program: &[u8],
    field: &mut [u8],
    used: usize,
    scratch: &mut [u8],
    budget: u32,
) -> Answer
    requires { Checked program.now field.old used scratch.old }
    ensures { machine program.now field.old used scratch.old budget ≡ answer (code_of result.code) result.steps result.used result.place field.new scratch.new }
{
    let ran = running::run_good(program, field, used, scratch, budget);
    Answer::from(ran)
}

fn sizes_fit(program: &[u8], field: &[u8], used: usize, scratch: &[u8]) -> bool
    ensures { result ≡ sizes program.now field.now used scratch.now }
{
    if 65536 < program.len() {
        return false;
    }
    if 65536 < field.len() {
        return false;
    }
    if 65536 < scratch.len() {
        return false;
    }
    if field.len() < used {
        return false;
    }
    field.len() <= scratch.len()
}

fn refusal(code: Code, used: usize, place: usize) -> Answer
    ensures { (code_of result.code ≡ code_of code) × (result.steps ≡ 0) × (result.used ≡ used) × (result.place ≡ place) }
{
    Answer {
        code,
        steps: 0,
        used,
        place,
    }
}

// A run of a good program, the sizes being in order.
fn run_field(
    program: &[u8],
    field: &mut [u8],
    used: usize,
    scratch: &mut [u8],
    budget: u32,
) -> Answer
    requires { Sized program.now field.old used scratch.old }
    ensures { machine program.now field.old used scratch.old budget ≡ answer (code_of result.code) result.steps result.used result.place field.new scratch.new }
{
    match checking_fields::check_field(&field[0..used], scratch) {
        Ok(()) => run_checked(program, field, used, scratch, budget),
        Err(FieldFault::Bad(place)) => refusal(Code::BadField, used, place),
        // the scratch is as long as the field buffer
        Err(FieldFault::Short) => refusal(Code::BadSizes, used, 0),
    }
}

// Expands the field by the program, in at most `budget` steps; the scratch has to be as long as the field buffer.
pub fn run(program: &[u8], field: &mut [u8], used: usize, scratch: &mut [u8], budget: u32) -> Answer
    ensures { machine program.now field.old used scratch.old budget ≡ answer (code_of result.code) result.steps result.used result.place field.new scratch.new }
{
    if !sizes_fit(program, field, used, scratch) {
        return refusal(Code::BadSizes, used, 0);
    }
    match checking::check_program(program) {
        Ok(()) => run_field(program, field, used, scratch, budget),
        Err(place) => {
            scratch.fill(0);
            refusal(Code::BadProgram, used, place)
        }
    }
}
