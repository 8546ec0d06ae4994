// The numbers of a sentence's variables, by first appearance, for each kind.
#![tactic(auto)]

ghost use Rattle.std.specs.Prelude.{◌≡◌, ◌∷◌, map, ◌+◌, ◌≤◌, ◌<◌, length};
ghost use Rattle.meaning.specs.Elements.{same};
ghost use Rattle.classes.specs.Table.{spelling, part};
ghost use Rattle.variables.specs.Variables.{Inside};
ghost use Rattle.variables.specs.Entries.{kinds, starts, sizes};

// A variable: its kind, and where its index starts and how long it is.
#[derive(Clone, Copy)]
pub struct Entry {
    pub kind: u8,
    pub start: u16,
    pub size: u16,
}

// The variables of a sentence of a text so far; 48 are good, and one more is met before it is found bad. A place of a text this short
// fits an entry.
#[derive(Drop)]
pub struct Variables<'a> {
    pub text: &'a [u8],
    pub entries: [Entry; 49],
    pub count: usize,
    ghost short: { length text.now ≤ 65536 },
    ghost inside: { Inside text.now (kinds entries) (starts entries) (sizes entries) count },
}

// Whether two parts are spelt alike.
fn same_part(a: &[u8], b: &[u8]) -> bool
    ensures { result ≡ same (map spelling a.now) (map spelling b.now) }
{
    let n = a.len();
    if n != b.len() {
        return false;
    }
    for k in 0..n {
        let x = classes::spelling_of(a[k]);
        let y = classes::spelling_of(b[k]);
        if x != y {
            return false;
        }
    }
    true
}

impl<'a> Variables<'a> {
    ghost use Rattle.variables.specs.Tables.{keys, Begun, Found, Numbered, Kept};

    // No variables yet.
    pub fn new(text: &'a [u8]) -> Self
        requires { length text.now ≤ 65536 }
        ensures { Begun text.entry result }
    {
        Variables {
            text,
            entries: [Entry {
                kind: 0,
                start: 0,
                size: 0,
            }; 49],
            count: 0,
        }
    }

    // The number of a variable, which is how many of its kind stand before it; as an error, where it is not among them.
    fn find(&self, kind: u8, start: usize, size: usize) -> Result<usize, usize>
        requires { start + size ≤ length self.now.text.now }
        ensures { Found (kind ∷ part self.now.text.now start size) (keys self.now) result }
    {
        let mut number: usize = 0;
        for j in 0..self.count {
            let entry = self.entries[j];
            if entry.kind != kind {
                continue;
            }
            let from = entry.start as usize;
            let index = &self.text[from..from + entry.size as usize];
            if same_part(&self.text[start..start + size], index) {
                return Ok(number);
            }
            number += 1;
        }
        Err(number)
    }

    // The number of the variable of this kind whose index is `size` bytes from `start` on; a new one is kept.
    pub fn number(&mut self, kind: u8, start: usize, size: usize) -> usize
        requires size_in_bounds { (start + size ≤ length self.old.text.now) × (start < 65536) × (size < 65536) }
        requires room { self.old.count < 49 }
        ensures { Numbered self.old (kind ∷ part self.old.text.now start size) self.new result }
    {
        match self.find(kind, start, size) {
            Ok(number) => number,
            Err(number) => {
                self.entries[self.count] = Entry {
                    kind,
                    start: start as u16,
                    size: size as u16,
                };
                self.count += 1;
                number
            }
        }
    }

    // Keeps the first variables alone.
    pub fn keep(&mut self, count: usize)
        requires { count ≤ self.old.count }
        ensures { Kept self.old count self.new }
    {
        self.count = count;
    }
}
