// Builds a right side with the values of its variables, in the place of the leading term.
// A walk's steps are as long as the elements, and measure needs each one's place for the pivot, so an iterator would have to give it too.
#![tactic(auto)]

ghost use Rattle.std.specs.Prelude.{◌≡◌, true, cond, ◌⊎◌, List, [], ◌∷◌, ◌++◌, ℕ, ◌+◌, ◌-◌, ◌≤◌, ◌<◌, length, take, drop, set};
ghost use Rattle.std.proofs.lemmas.List.Edits.{sets};
ghost use Rattle.meaning.specs.Elements.{is_variable};
ghost use Rattle.meaning.proofs.Cutting.{Whole};
ghost use Rattle.scanning.specs.State.{is_call};
ghost use Rattle.building.specs.Build.{side_of, right_of, piece, pour, Ready, Known, span_of, spans, calls_of, placed, Given, Spanned, Pivot, Measured, Pivoted, Parted};

// A right side: program[from..to]. Two places and no slice: the pivot is a place of the program, as Pivot and Measured have it.
#[derive(Clone, Copy)]
pub struct Side {
    pub from: usize,
    pub to: usize,
}

// What a right side that fits will be: its length, its call brackets, and where the longest of its values stands in the program, or the
// side's end, as Pivot has it.
#[derive(Clone, Copy)]
pub struct Extent {
    pub size: usize,
    pub calls: usize,
    pub pivot: usize,
}

// The longest value so far, and its place.
#[derive(Clone, Copy)]
pub struct Longest {
    pub span: usize,
    pub at: usize,
}

// The value at the pivot, as a part of the argument; and where the side goes on behind it.
#[derive(Clone, Copy)]
pub struct Part {
    pub from: usize,
    pub to: usize,
    pub next: usize,
}

fn is_call(kind: u8) -> bool
    ensures { result ≡ is_call (kind ∷ []) }
{
    kind == kinds::CALL || kind == kinds::RETURN
}

// The length of what the element program[at..at + len] gives.
fn span_of(program: &[u8], at: usize, len: usize, binds: &[usize; kinds::BINDS]) -> usize
    requires { Spanned program.now at len binds.now }
    ensures { result ≡ span_of binds.now (take len (drop at program.now)) }
{
    let kind = program[at];
    if !kinds::is_variable(kind) {
        return len;
    }
    let slot = kinds::slot(kind, program[at + 1]);
    binds[slot + kinds::SLOTS] - binds[slot]
}

// The longer of two values, where the element at `at` is one.
fn longer(best: Longest, kind: u8, at: usize, span: usize) -> Longest
    ensures { (result.at ≡ best.at) ⊎ ((is_variable (kind ∷ []) ≡ true) × (result.at ≡ at)) }
{
    if !kinds::is_variable(kind) {
        return best;
    }
    if span <= best.span {
        return best;
    }
    Longest { span, at }
}

// Measures the right side `side`, which may give `limit` bytes.
pub fn measure(
    program: &[u8],
    side: Side,
    binds: &[usize; kinds::BINDS],
    limit: usize,
) -> Option<Extent>
    requires given { Given program.now side.from side.to binds.now }
    requires whole { Whole (right_of program.now side) }
    ensures { Measured program.now side.from side.to binds.now limit result }
{
    let mut at = side.from;
    let mut size: usize = 0;
    let mut calls: usize = 0;
    let mut best = Longest {
        span: 0,
        at: side.to,
    };
    while at < side.to {
        let kind = program[at];
        let len = kinds::length_of(kind);
        let span = span_of(program, at, len, binds);
        if limit - size < span {
            return None;
        }
        if is_call(kind) {
            calls += 1;
        }
        best = longer(best, kind, at, span);
        size += span;
        at += len;
    }
    Some(Extent {
        size,
        calls,
        pivot: best.at,
    })
}

// Puts a part of `src` behind the first n bytes of `out`, and answers how many there are then.
fn put_part(src: &[u8], from: usize, len: usize, out: &mut [u8], n: usize) -> usize
    requires len_in_bounds { from + len ≤ length src.now }
    requires len_in_bounds_2 { n + len ≤ length out.old }
    ensures { (result ≡ n + len) × (take result out.new ≡ take n out.old ++ take len (drop from src.now)) }
{
    moving::copy(src, from, len, out, n);
    n + len
}

// Puts what the element program[at..at + len] gives.
fn put_element(
    program: &[u8],
    at: usize,
    len: usize,
    arg: &[u8],
    binds: &[usize; kinds::BINDS],
    out: &mut [u8],
    n: usize,
) -> usize
    requires known { Known program.now at len arg.now binds.now }
    requires program_in_bounds { n + span_of binds.now (take len (drop at program.now)) ≤ length out.old }
    ensures { (result ≡ n + span_of binds.now (take len (drop at program.now))) × (take result out.new ≡ take n out.old ++ piece arg.now binds.now (take len (drop at program.now))) }
{
    let kind = program[at];
    if !kinds::is_variable(kind) {
        return put_part(program, at, len, out, n);
    }
    let slot = kinds::slot(kind, program[at + 1]);
    let from = binds[slot];
    put_part(arg, from, binds[slot + kinds::SLOTS] - from, out, n)
}

// Builds a side behind the first `start` bytes of `out`, and answers how many there are then.
fn build(
    program: &[u8],
    side: Side,
    arg: &[u8],
    binds: &[usize; kinds::BINDS],
    out: &mut [u8],
    start: usize,
) -> usize
    requires in_program { (side.from ≤ side.to) × (side.to ≤ length program.now) }
    requires whole { Whole (right_of program.now side) }
    requires ready { Ready arg.now binds.now (right_of program.now side) }
    requires room { start + spans binds.now (right_of program.now side) ≤ length out.old }
    ensures { (result ≡ start + spans binds.now (right_of program.now side)) × (take result out.new ≡ take start out.old ++ pour arg.now binds.now (right_of program.now side)) }
{
    let mut at = side.from;
    let mut n = start;
    while at < side.to {
        let len = kinds::length_of(program[at]);
        n = put_element(program, at, len, arg, binds, out, n);
        at += len;
    }
    n
}

// The value at the pivot, or an empty part behind the side.
fn pivot_part(program: &[u8], pivot: usize, to: usize, binds: &[usize; kinds::BINDS]) -> Part
    requires { Pivoted program.now to binds.now pivot }
    ensures { (arg : List ℕ) → (from : ℕ) → Pivot program.now from to pivot → Whole (side_of program.now from to) → from ≤ to → to ≤ length program.now → Ready arg binds.now (side_of program.now from to) → Parted program.now from pivot to arg binds.now result.from result.to result.next }
{
    if pivot == to {
        return Part {
            from: 0,
            to: 0,
            next: to,
        };
    }
    let slot = kinds::slot(program[pivot], program[pivot + 1]);
    Part {
        from: binds[slot],
        to: binds[slot + kinds::SLOTS],
        next: pivot + 2,
    }
}

// How much of the scratch is built: up to the pivot, and in all.
#[derive(Clone, Copy)]
pub struct Filled {
    pub n: usize,
    pub m: usize,
}

// Builds two sides in the scratch, one behind the other.
fn fill(
    program: &[u8],
    before: Side,
    behind: Side,
    arg: &[u8],
    binds: &[usize; kinds::BINDS],
    scratch: &mut [u8],
) -> Filled
    requires in_program { (before.from ≤ before.to) × (before.to ≤ length program.now) × (behind.from ≤ behind.to) × (behind.to ≤ length program.now) }
    requires before { Whole (right_of program.now before) × Ready arg.now binds.now (right_of program.now before) }
    requires behind { Whole (right_of program.now behind) × Ready arg.now binds.now (right_of program.now behind) }
    requires room { spans binds.now (right_of program.now before) + spans binds.now (right_of program.now behind) ≤ length scratch.old }
    ensures { (result.n ≡ spans binds.now (right_of program.now before)) × (result.m ≡ result.n + spans binds.now (right_of program.now behind)) × (take result.n scratch.new ≡ pour arg.now binds.now (right_of program.now before)) × (take (result.m - result.n) (drop result.n scratch.new) ≡ pour arg.now binds.now (right_of program.now behind)) }
{
    let n = build(program, before, arg, binds, scratch, 0);
    let m = build(program, behind, arg, binds, scratch, n);
    Filled { n, m }
}

// Puts parts[..n], then field[from..from + v], then parts[n..m] into the field, up to `end`.
fn put_in(field: &mut [u8], end: usize, from: usize, v: usize, parts: &[u8], n: usize, m: usize)
    requires { (n ≤ m) × (m ≤ length parts.now) × (from + v ≤ length field.old) × (m + v ≤ end) × (end ≤ length field.old) }
    ensures { field.new ≡ take (end - (m + v)) field.old ++ ((take n parts.now ++ (take v (drop from field.old) ++ take (m - n) (drop n parts.now))) ++ drop end field.old) }
{
    let behind = end - (m - n);
    moving::shift(field, from, behind - v, v);
    moving::copy(parts, n, m - n, field, behind);
    moving::copy(parts, 0, n, field, behind - v - n);
}

// Puts what a side gives into the field, up to the > at `at`, whose argument is field[hi..at]. The value at the pivot moves
// within the field, and may well stay; what stands before and behind it is built in the scratch.
pub fn place(
    program: &[u8],
    side: Side,
    pivot: usize,
    binds: &[usize; kinds::BINDS],
    field: &mut [u8],
    hi: usize,
    at: usize,
    scratch: &mut [u8],
)
    requires in_program { (side.from ≤ side.to) × (side.to ≤ length program.now) × Whole (right_of program.now side) × Pivot program.now side.from side.to pivot }
    requires hi_le_at { (hi ≤ at) × (at < length field.old) }
    requires ready { Ready (take (at - hi) (drop hi field.old)) binds.now (right_of program.now side) }
    requires room { (spans binds.now (right_of program.now side) ≤ at + 1) × (length field.old ≤ length scratch.old) }
    ensures { field.new ≡ take (at + 1 - spans binds.now (right_of program.now side)) field.old ++ (pour (take (at - hi) (drop hi field.old)) binds.now (right_of program.now side) ++ drop (at + 1) field.old) }
{
    let value = pivot_part(program, pivot, side.to, binds);
    let before = Side {
        from: side.from,
        to: pivot,
    };
    let behind = Side {
        from: value.next,
        to: side.to,
    };
    let built = fill(program, before, behind, &field[hi..at], binds, scratch);
    let v = value.to - value.from;
    put_in(field, at + 1, hi + value.from, v, scratch, built.n, built.m);
}

// Notes one element of a side, if it is a call bracket, and answers where the next note goes.
fn note_one(kind: u8, at: usize, calls: &mut [u16], k: usize) -> usize
    requires { (is_call (kind ∷ []) ≡ true) → (k < length calls.old) × (at < 65536) }
    ensures { (result ≡ cond (is_call (kind ∷ [])) (k + 1) k) × (calls.new ≡ cond (is_call (kind ∷ [])) (set calls.old k at) calls.old) }
{
    if is_call(kind) {
        calls[k] = at as u16;
        return k + 1;
    }
    k
}

// Notes in calls[first..] the call brackets of a side, where what it gives begins at `start`.
pub fn note(
    program: &[u8],
    side: Side,
    binds: &[usize; kinds::BINDS],
    start: usize,
    calls: &mut [u16],
    first: usize,
)
    requires given { Given program.now side.from side.to binds.now }
    requires whole { Whole (right_of program.now side) }
    requires room { (start + spans binds.now (right_of program.now side) ≤ 65536) × (first + calls_of (right_of program.now side) ≤ length calls.old) }
    ensures { calls.new ≡ sets calls.old first (placed start binds.now (right_of program.now side)) }
{
    let mut i = side.from;
    let mut at = start;
    let mut k = first;
    while i < side.to {
        let kind = program[i];
        let len = kinds::length_of(kind);
        k = note_one(kind, at, calls, k);
        at += span_of(program, i, len, binds);
        i += len;
    }
}
