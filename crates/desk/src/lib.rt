// The support desk's record and its call, and the pointer into what an answer speaks of.
#![tactic(auto)]

ghost use Rattle.std.specs.Prelude.{◌≡◌};
ghost use Rattle.meaning.specs.Pointer.{part_from, used_field, pointer as pointed};
ghost use Rattle.machine.specs.Codes.{code_of};
ghost use Rattle.desk.specs.Calling.{Called};

use machine::{Answer, Code};

// The used length, the last code and the last place.
#[derive(Clone, Copy)]
pub struct Record {
    pub used: usize,
    pub code: Code,
    pub place: usize,
}

pub fn fresh(used: usize) -> Record
    ensures { (result.used ≡ used) × (code_of result.code ≡ 1) × (result.place ≡ 0) }
{
    Record {
        used,
        code: Code::Paused,
        place: 0,
    }
}

impl From<Answer> for Record {
    ghost from_gives = { λ a r. r ≡ record { used = a.used; code = a.code; place = a.place } };

    fn from(answer: Answer) -> Record {
        Record {
            used: answer.used,
            code: answer.code,
            place: answer.place,
        }
    }
}

// One call on a record by value; it alters nothing where the code is not `Paused`.
pub fn call(noted: Record, program: &[u8], field: &mut [u8], scratch: &mut [u8]) -> Record
    ensures { Called program.now noted field.old scratch.old result field.new scratch.new }
{
    if noted.code != Code::Paused {
        return noted;
    }
    let answer = machine::run(program, field, noted.used, scratch, 1);
    Record::from(answer)
}

// The same on a record that is lent.
pub fn desk(noted: &mut Record, program: &[u8], field: &mut [u8], scratch: &mut [u8])
    ensures { Called program.now noted.old field.old scratch.old noted.new field.new scratch.new }
{
    *noted = call(*noted, program, field, scratch);
}

// The part of the field from the place up to the used length, or an empty one.
fn in_field<'a>(field: &'a [u8], used: usize, place: usize) -> &'a [u8]
    ensures { result.now ≡ part_from place (used_field used field.now) }
{
    if field.len() < used || used < place {
        return &[];
    }
    &field[place..used]
}

// The part of the program from the place on, or an empty one.
fn in_program<'a>(program: &'a [u8], place: usize) -> &'a [u8]
    ensures { result.now ≡ part_from place program.now }
{
    program.get(place..).unwrap_or(&[])
}

// The part of the program or of the field that an answer speaks of.
pub fn pointer<'a>(answer: Answer, program: &'a [u8], field: &'a [u8]) -> &'a [u8]
    ensures { result.now ≡ pointed (code_of answer.code) answer.used answer.place program.now field.now }
{
    let used = answer.used;
    let place = answer.place;
    match answer.code {
        Code::Done | Code::Paused | Code::BadSizes => &[],
        Code::NoMatch | Code::NoFunction | Code::NoRoom => in_field(field, used, place),
        Code::BadProgram => in_program(program, place),
        // An arm apart, since this place is an element's and no call's.
        Code::BadField => in_field(field, used, place),
    }
}
