// One step of the machine at the leading term.
#![tactic(auto)]

ghost use Rattle.std.specs.Prelude.{◌≡◌, ◌∷◌, [], ℕ, ◌+◌, ◌-◌, ◌≤◌, ◌<◌, length, get_or, Some};
ghost use Rattle.meaning.specs.Machine.{step};
ghost use Rattle.meaning.proofs.Programs.{Functions};
ghost use Rattle.scanning.specs.State.{field_at, Good, Roomy, Reaches};
ghost use Rattle.choosing.specs.Choose.{rest_of, Program, Looked, Cache};
ghost use Rattle.stepping.specs.Stepping.{Under, Led, Stepped};

use choosing::Index;
use elements::Cursor;
use scanning::Spread;

// The leading term: its < stands last before the gap, at `from`, and its argument behind it, from `hi` up to its > at `at`. The notes of the
// call brackets behind it begin at `top`.
#[derive(Clone, Copy)]
pub struct Lead {
    pub from: usize,
    pub hi: usize,
    pub at: usize,
    pub top: usize,
}

// Why no step is possible at a leading term.
#[derive(Clone, Copy, PartialEq, Eq)]
pub enum Stuck {
    NoMatch,
    NoFunction,
    NoRoom,
}

// Where the field goes on behind the gap after a step, and where its notes begin.
#[derive(Clone, Copy)]
pub struct Onward {
    pub hi: usize,
    pub top: usize,
}

// Brings what the leading term has before the gap behind it, so that its argument is in one piece. The term's > is at `at`.
pub fn gather(field: &mut [u8], s: Spread, at: usize, calls: &[u16]) -> Lead
    requires good { Good field.old s.lo s.hi }
    requires reached { Reaches field.old s at calls.now × (get_or field.old at 0 ≡ 7) }
    ensures led { (result.at ≡ at) × (result.top ≡ s.top) × (0 < s.depth) }
    ensures same { Good field.new (result.from + 3) result.hi × (field_at field.new (result.from + 3) result.hi ≡ field_at field.old s.lo s.hi) × Under field.new result.from result.hi at s.read (s.depth - 1) s.top calls.now }
{
    let last = s.depth - 1;
    let from = calls[last] as usize;
    let n = s.lo - (from + 3);
    let hi = s.hi - n;
    moving::shift(field, from + 3, hi, n);
    Lead {
        from,
        hi,
        at,
        top: s.top,
    }
}

// The step at a leading term, with the body of its function known.
// Field and scratch are lent apart by the caller, so that their lengths are a clause, here and in building.
fn step_in(
    program: &[u8],
    body: Cursor,
    field: &mut [u8],
    lead: Lead,
    scratch: &mut [u8],
    binds: &mut [usize; kinds::BINDS],
    calls: &mut [u16],
) -> Result<Onward, Stuck>
    requires functions { Functions (rest_of program.now 0) }
    requires looked { Looked program.now (get_or field.old (lead.from + 1) 0 ∷ get_or field.old (lead.from + 2) 0 ∷ []) (Some body) }
    requires good { Good field.old (lead.from + 3) lead.hi }
    requires led { Led field.old lead calls.old }
    requires roomy { Roomy field.old calls.old × (length field.old ≤ length scratch.old) }
    ensures { (read : ℕ) → (depth : ℕ) → Under field.old lead.from lead.hi lead.at read depth lead.top calls.old → Stepped field.old lead.from read depth (step (rest_of program.now 0) (length field.old) (field_at field.old (lead.from + 3) lead.hi)) result field.new calls.new }
{
    let side = choosing::choose(program, body, &field[lead.hi..lead.at], binds).ok_or(
        Stuck::NoMatch,
    )?;
    let room = lead.at + 1 - lead.from;
    let extent = building::measure(program, side, binds, room).ok_or(Stuck::NoRoom)?;
    building::place(
        program,
        side,
        extent.pivot,
        binds,
        field,
        lead.hi,
        lead.at,
        scratch,
    );
    let start = lead.at + 1 - extent.size;
    let first = lead.top - extent.calls;
    building::note(program, side, binds, start, calls, first);
    Ok(Onward {
        hi: start,
        top: first,
    })
}

// The same, with the function looked up by the term's name.
// binds, index and calls are lent apart, side by side: Cache, Led and Roomy speak of one each.
pub fn step_at(
    program: &[u8],
    field: &mut [u8],
    lead: Lead,
    scratch: &mut [u8],
    binds: &mut [usize; kinds::BINDS],
    index: &mut Index,
    calls: &mut [u16],
) -> Result<Onward, Stuck>
    requires program_len_bound { (length program.now ≤ 65536) × Functions (rest_of program.now 0) × Program program.now }
    requires cache { Cache program.now index.old }
    requires good { Good field.old (lead.from + 3) lead.hi }
    requires led { Led field.old lead calls.old }
    requires roomy { Roomy field.old calls.old × (length field.old ≤ length scratch.old) }
    ensures by_index { (read : ℕ) → (depth : ℕ) → Under field.old lead.from lead.hi lead.at read depth lead.top calls.old → Stepped field.old lead.from read depth (step (rest_of program.now 0) (length field.old) (field_at field.old (lead.from + 3) lead.hi)) result field.new calls.new }
    ensures cache_2 { Cache program.now index.new }
{
    let lo = field[lead.from + 1];
    let high = field[lead.from + 2];
    let body = index.look_up(program, lo, high).ok_or(Stuck::NoFunction)?;
    step_in(program, body, field, lead, scratch, binds, calls)
}
