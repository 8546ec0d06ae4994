// A run that nothing refuses: step after step, until no call is left, the budget is spent or a step is not possible.
#![tactic(auto)]

ghost use Rattle.std.specs.Prelude.{◌≡◌, ◌-◌, ◌*◌, ◌≤◌, length, drop};
ghost use Rattle.std.proofs.Math.Seq.{paste};
ghost use Rattle.meaning.specs.Machine.{run as run_of, machine, answer};
ghost use Rattle.scanning.specs.State.{field_of};
ghost use Rattle.choosing.specs.Choose.{rest_of, Cache};
ghost use Rattle.stepping.specs.Stepping.{reason_of};
ghost use Rattle.running.specs.Running.{number_of, Checked, Ready, Halted};

use choosing::Index;
use scanning::Spread;
use stepping::Stuck;

// How a run comes to its end.
#[derive(Clone, Copy, PartialEq, Eq)]
pub enum End {
    Done,
    Paused,
    NoMatch,
    NoFunction,
    NoRoom,
}

impl From<Stuck> for End {
    ghost from_gives = { λ s e. number_of e ≡ reason_of s };

    fn from(stuck: Stuck) -> End {
        match stuck {
            Stuck::NoMatch => End::NoMatch,
            Stuck::NoFunction => End::NoFunction,
            Stuck::NoRoom => End::NoRoom,
        }
    }
}

// Where the steps came to a halt, and why; the field is field[..lo] and field[hi..].
#[derive(Clone, Copy)]
struct Halt {
    end: End,
    steps: u32,
    place: usize,
    lo: usize,
    hi: usize,
}

// What a run leaves besides the field.
#[derive(Clone, Copy)]
pub struct Ending {
    pub end: End,
    pub steps: u32,
    pub used: usize,
    pub place: usize,
}

fn halted(end: End, steps: u32, place: usize, lo: usize, hi: usize) -> Halt
    ensures { result ≡ record { end = end; steps = steps; place = place; lo = lo; hi = hi } }
{
    Halt {
        end,
        steps,
        place,
        lo,
        hi,
    }
}

// Brings the field to the end of its buffer; nothing of it is read yet.
fn begin(field: &mut [u8], used: usize, top: usize) -> Spread
    requires { used ≤ length field.old }
    ensures { (result.lo ≡ 0) × (result.hi ≡ length field.old - used) × (result.read ≡ result.hi) × (result.depth ≡ 0) × (result.top ≡ top) × (field.new ≡ paste field.old result.hi (drop 0 field.old) used) }
{
    let start = field.len() - used;
    moving::shift(field, 0, start, used);
    Spread {
        lo: 0,
        hi: start,
        read: start,
        depth: 0,
        top,
    }
}

// Steps until the field holds no call, the budget is spent, or a step is not possible.
fn steps_from(
    program: &[u8],
    field: &mut [u8],
    size: usize,
    scratch: &mut [u8],
    budget: u32,
    calls: &mut [u16],
    binds: &mut [usize; kinds::BINDS],
    index: &mut Index,
) -> Halt
    requires ready { Ready program.now field.old size scratch.old }
    requires field_len_bound { length field.old ≤ 2 * length calls.old }
    requires cache { Cache program.now index.old }
    ensures { Halted (run_of (rest_of program.now 0) (length field.old) budget 0 (field_of field.old size)) field.new result.end result.steps result.place result.lo result.hi }
{
    let mut s = begin(field, size, calls.len());
    let mut steps: u32 = 0;
    loop {
        let mark = s.advance(field, calls);
        s = mark.spread;
        let Some(at) = mark.at else {
            return halted(End::Done, steps, 0, s.lo, s.hi);
        };
        if steps == budget {
            return halted(End::Paused, steps, 0, s.lo, s.hi);
        }
        let lead = stepping::gather(field, s, at, calls);
        match stepping::step_at(program, field, lead, scratch, binds, index, calls) {
            Ok(next) => {
                s.lo = lead.from;
                s.hi = next.hi;
                s.depth -= 1;
                s.top = next.top;
                steps += 1;
            }
            Err(stuck) => {
                return halted(End::from(stuck), steps, lead.from, lead.from + 3, lead.hi);
            }
        }
    }
}

// A run with room for the notes of N call brackets, which is enough; at its end the field is closed, and the scratch cleared.
fn run_noting<const N: usize>(
    program: &[u8],
    field: &mut [u8],
    used: usize,
    scratch: &mut [u8],
    budget: u32,
) -> Ending
    requires checked { Checked program.now field.old used scratch.old }
    requires notes { (length field.old ≤ 2 * N) × (N ≤ 32768) }
    ensures { machine program.now field.old used scratch.old budget ≡ answer (number_of result.end) result.steps result.used result.place field.new scratch.new }
{
    let mut calls = [0u16; N];
    let mut binds = [0usize; kinds::BINDS];
    let mut index = Index {
        read: 0,
        spots: [0u16; choosing::SPOTS],
    };
    let halt = steps_from(
        program, field, used, scratch, budget, &mut calls, &mut binds, &mut index,
    );
    let length = moving::close(field, halt.lo, halt.hi);
    scratch.fill(0);
    Ending {
        end: halt.end,
        steps: halt.steps,
        used: length,
        place: halt.place,
    }
}

// A run of a good program from a good field. A call is four bytes long at least and has two brackets; a smaller buffer gets a smaller table.
pub fn run_good(
    program: &[u8],
    field: &mut [u8],
    used: usize,
    scratch: &mut [u8],
    budget: u32,
) -> Ending
    requires { Checked program.now field.old used scratch.old }
    ensures { machine program.now field.old used scratch.old budget ≡ answer (number_of result.end) result.steps result.used result.place field.new scratch.new }
{
    if field.len() <= 4096 {
        return run_noting::<2048>(program, field, used, scratch, budget);
    }
    if field.len() <= 16384 {
        return run_noting::<8192>(program, field, used, scratch, budget);
    }
    run_noting::<32768>(program, field, used, scratch, budget)
}
