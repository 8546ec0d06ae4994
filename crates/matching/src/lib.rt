// Matching: a left side against an argument. Which variables have a value depends only on how far the left side has been read, so a set of slots
// goes along by value, and nothing has to be undone after a failed try. The table is lent to be written, so it goes beside them: `Values` only reads.
#![tactic(auto)]

ghost use Rattle.std.specs.Prelude.{◌∷◌, [], ◌-◌, drop};
ghost use Rattle.meaning.specs.Elements.{elements};
ghost use Rattle.meaning.specs.Matching.{seek, fronts, first_of};
ghost use Rattle.settling.specs.Values.{env_of, FreshE, Ready};
ghost use Rattle.matching.specs.Binding.{Outcome, Starting, Matched};

use kinds::Slots;
use settling::Values;

// The rest of a left side, from i on, against the rest of an argument.
#[cycle(match_rest_try_lengths)]
fn match_rest(
    left: &[u8],
    i: usize,
    arg: &[u8],
    at: usize,
    binds: &mut [usize],
    settled: Slots,
) -> bool
    requires { Ready left.now i arg.now at binds.old settled.bits }
    ensures { Outcome arg.now binds.old settled.bits binds.new (seek (elements (drop i left.now)) (elements (drop at arg.now)) (env_of arg.now binds.old settled.bits)) result }
{
    let mut here = i;
    let mut place = at;
    let mut settled = settled;
    while here < left.len() {
        let item = settling::item_at(left, here);
        if let Some(slot) = settling::fresh_e(item.slot, settled) {
            return try_lengths(left, item.next, arg, place, binds, settled, slot);
        }
        let values = Values {
            arg,
            binds,
            settled,
        };
        let Some(end) = values.only_end(item, place) else {
            return false;
        };
        settled = settling::settle(binds, settled, item.slot, place, end);
        here = item.next;
        place = end;
    }
    place == arg.len()
}

// An e-variable without a value, and the rest of the left side, from j on: its lengths, the shortest first.
#[cycle(match_rest_try_lengths)]
fn try_lengths(
    left: &[u8],
    j: usize,
    arg: &[u8],
    at: usize,
    binds: &mut [usize],
    settled: Slots,
    slot: usize,
) -> bool
    requires { Ready left.now j arg.now at binds.old settled.bits × FreshE slot settled.bits }
    ensures { Outcome arg.now binds.old settled.bits binds.new (first_of (seek (elements (drop j left.now))) (10 ∷ (slot - 32) ∷ []) (env_of arg.now binds.old settled.bits) (fronts (elements (drop at arg.now)) 0)) result }
{
    if j == left.len() {
        settling::settle(binds, settled, Some(slot), at, arg.len());
        return true;
    }
    let values = Values {
        arg,
        binds,
        settled,
    };
    let w = foreseeing::foresee(left, j, values, at, slot);
    let mut from = at;
    while let Some(end) = foreseeing::next_end(w, arg, from) {
        let known = settling::settle(binds, settled, Some(slot), at, end);
        if match_rest(left, j, arg, end, binds, known) {
            return true;
        }
        let Some(next) = elements::term_end(arg, end) else {
            return false;
        };
        from = next;
    }
    false
}

// A left side against an argument.
pub fn match_left(left: &[u8], arg: &[u8], binds: &mut [usize]) -> bool
    requires { Starting left.now arg.now binds.old }
    ensures { Matched (elements left.now) arg.now binds.new result }
{
    match_rest(left, 0, arg, 0, binds, Slots::NONE)
}
