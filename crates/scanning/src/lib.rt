// The field spread over its buffer, with a gap at the place of work; and the call brackets on both sides of it.
#![tactic(auto)]

ghost use Rattle.std.specs.Prelude.{◌≡◌, ◌+◌, ◌*◌, ◌≤◌, ◌<◌, length, get_or, drop, MatchOption};
ghost use Rattle.meaning.specs.Elements.{cut, size};
ghost use Rattle.meaning.proofs.Cutting.{Whole};
ghost use Rattle.scanning.specs.State.{field_at, calm, Good, Next, Advanced, Roomy, Stands, Reaches};

use elements::Cursor;

// What is before the gap is field[..lo], what is behind it field[hi..]. The open calls before the gap are noted in calls[..depth], the call
// brackets behind it, up to `read`, in calls[top..], each by its place: no heap, so one list, used from both ends.
// What holds of it are clauses (Good, Stands): they are data, and a ghost field's fact has one proof at most.
#[derive(Clone, Copy)]
pub struct Spread {
    pub lo: usize,
    pub hi: usize,
    pub read: usize,
    pub depth: usize,
    pub top: usize,
}

// The next call bracket behind the gap, if there is one; it is taken off the notes.
#[derive(Clone, Copy)]
pub struct Mark {
    pub at: Option<usize>,
    pub spread: Spread,
}

// The place of the first call bracket from `at` on, if there is one.
fn next_bracket(field: &[u8], at: usize) -> Option<usize>
    requires at_in_bounds { at ≤ length field.now }
    requires whole { Whole (cut 0 (drop at field.now)) }
    ensures { MatchOption result (length field.now ≡ at + size (calm (cut 0 (drop at field.now)))) (λ k. (k ≡ at + size (calm (cut 0 (drop at field.now)))) × (k < length field.now)) }
{
    let mut c = Cursor { at };
    while c.at < field.len() {
        let passed = c.pass(field);
        if passed.kind == kinds::CALL {
            return Some(c.at);
        }
        if passed.kind == kinds::RETURN {
            return Some(c.at);
        }
        let next = passed.next;
        c = next.past_characters(field, 256, field.len());
    }
    None
}

impl Spread {
    // The next call bracket, from the notes or, where these are used up, read off the field.
    fn next_mark(self, field: &[u8], calls: &[u16]) -> Mark
        requires good { Good field.now self.lo self.hi }
        requires notes { length field.now ≤ 2 * length calls.now }
        requires standing { Stands field.now self calls.now }
        ensures { (result.spread.lo ≡ self.lo) × (result.spread.hi ≡ self.hi) × (result.spread.depth ≡ self.depth) × Next field.now self.lo self.hi calls.now result.at result.spread.read self.depth result.spread.top }
    {
        let mut s = self;
        if let Some(at) = calls.get(s.top) {
            s.top += 1;
            return Mark {
                at: Some(*at as usize),
                spread: s,
            };
        }
        let Some(at) = next_bracket(field, s.read) else {
            return Mark {
                at: None,
                spread: s,
            };
        };
        let c = Cursor { at };
        let passed = c.pass(field);
        s.read = passed.next.at;
        Mark {
            at: Some(at),
            spread: s,
        }
    }

    // Roomy, here and below, is of field and notes, which are lent apart, so that no one struct can hold it.
    // Brings all up to the < at `at` before the gap, and notes the call as open.
    fn pass_call(self, field: &mut [u8], at: usize, calls: &mut [u16]) -> Spread
        requires good { Good field.old self.lo self.hi }
        requires roomy { Roomy field.old calls.old }
        requires reached { Reaches field.old self at calls.old × (get_or field.old at 0 ≡ 6) }
        ensures { Good field.new result.lo result.hi × (field_at field.new result.lo result.hi ≡ field_at field.old self.lo self.hi) × (self.hi < result.hi) × Stands field.new result calls.new }
    {
        let mut s = self;
        let n = at + 3 - s.hi;
        let depth = s.depth;
        moving::shift(field, s.hi, s.lo, n);
        calls[depth] = (s.lo + n - 3) as u16;
        s.lo = s.lo + n;
        s.hi = s.hi + n;
        s.depth = depth + 1;
        s
    }

    // On to the first >: every < before it is opened.
    pub fn advance(self, field: &mut [u8], calls: &mut [u16]) -> Mark
        requires good { Good field.old self.lo self.hi }
        requires roomy { Roomy field.old calls.old }
        requires standing { Stands field.old self calls.old }
        ensures { Advanced field.old self.lo self.hi field.new result.spread.lo result.spread.hi calls.new result.at result.spread.read result.spread.depth result.spread.top }
    {
        let mut s = self;
        loop {
            let mark = s.next_mark(field, calls);
            let Some(at) = mark.at else {
                return mark;
            };
            if field[at] == kinds::RETURN {
                return mark;
            }
            let reached = mark.spread;
            s = reached.pass_call(field, at, calls);
        }
    }
}
