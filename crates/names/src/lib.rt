// The names of a text: their numbers by first appearance, through an index of their spellings, and their list.
#![tactic(auto)]

ghost use Rattle.std.specs.Prelude.{◌≡◌, ◌+◌, ◌*◌, ◌≤◌, ◌<◌, length, get_or, drop};
ghost use Rattle.std.proofs.lemmas.List.Edits.{sets};
ghost use Rattle.meaning.specs.Elements.{same};
ghost use Rattle.text.specs.Numbering.{name_key};
ghost use Rattle.text.specs.Answers.{list_of, filled};
ghost use Rattle.classes.specs.Table.{spelling};
ghost use Rattle.text.specs.Tokens.{tail_of};
ghost use Rattle.names.specs.Names.{key_at, named, number_at};
ghost use Rattle.names.specs.Index.{mixed, bucket, Index};
ghost use Rattle.names.specs.Entries.{firsts, links};

// The kind of a record of the list.
const NAME: u8 = 20;

// A name: where it first begins, and one more than the number of the name before it in its bucket, or 0 if there is none. There is no
// heap, so a bucket is such a chain.
// 0 and no Option, here and in `heads`: an Option<u16> has four bytes, and the tables would not fit the stack.
#[derive(Clone, Copy)]
pub struct Entry {
    pub first: u16,
    pub link: u16,
}

// The names of a text so far, and for each bucket of their spellings one more than the number of the latest name, or 0. A place of a
// text this short fits an entry.
#[derive(Drop)]
pub struct Names<'a> {
    pub text: &'a [u8],
    pub entries: [Entry; 32768],
    pub heads: [u16; 8192],
    pub count: usize,
    ghost short: { length text.now ≤ 65536 },
    ghost index: { Index text.now (firsts entries) heads (links entries) count },
}

// The spelling at i; 0 past the end.
fn spelled(text: &[u8], i: usize) -> u8
    ensures { result ≡ spelling (get_or text.now i 0) }
{
    if text.len() <= i {
        return 0;
    }
    classes::spelling_of(text[i])
}

// Whether the names that begin at a and b are one.
fn same_name(text: &[u8], a: usize, b: usize) -> bool
    requires { (a < length text.now) × (b < length text.now) }
    ensures { result ≡ same (key_at text.now a) (key_at text.now b) }
{
    if text[a] != text[b] {
        return false;
    }
    for i in a + 1..text.len() {
        let x = spelled(text, i);
        if x != spelled(text, i + b - a) {
            return false;
        }
        if x == 0 {
            return true;
        }
    }
    spelled(text, text.len() + b - a) == 0
}

// One byte more of a spelling; the remainder by a power of two takes no division.
fn mix(h: usize, x: u8) -> usize
    requires { h < 8192 }
    ensures { (result ≡ mixed h x) × (result < 8192) }
{
    (h * 31 + (x as usize)) % 8192
}

// The bucket of the name that begins at `at`.
fn bucket_of(text: &[u8], at: usize) -> usize
    requires { at < length text.now }
    ensures { (result ≡ bucket (key_at text.now at)) × (result < 8192) }
{
    let mut h = text[at] as usize;
    for i in at + 1..text.len() {
        let x = classes::spelling_of(text[i]);
        if x == 0 {
            return h;
        }
        h = mix(h, x);
    }
    h
}

// The bytes of a name behind its first, in their one spelling.
fn write_tail(text: &[u8], from: usize, list: &mut [u8], start: usize)
    requires { start + length (tail_of (drop from text.now)) ≤ length list.old }
    ensures { list.new ≡ sets list.old start (tail_of (drop from text.now)) }
{
    for i in from..text.len() {
        let x = classes::spelling_of(text[i]);
        if x == 0 {
            return;
        }
        list[start + i - from] = x;
    }
}

// The kind and the spelling of the name that begins at o.
fn write_key(text: &[u8], o: usize, list: &mut [u8], at: usize)
    requires { (o < length text.now) × (at + length (name_key (key_at text.now o)) ≤ length list.old) }
    ensures { list.new ≡ sets list.old at (name_key (key_at text.now o)) }
{
    list[at] = NAME;
    list[at + 1] = text[o];
    write_tail(text, o + 1, list, at + 2);
}

impl<'a> Names<'a> {
    ghost use Rattle.names.specs.Tables.{Begun, Found, Numbered};

    // No names yet.
    pub fn new(text: &'a [u8]) -> Self
        requires { length text.now ≤ 65536 }
        ensures { Begun text.entry result }
    {
        Names {
            text,
            entries: [Entry { first: 0, link: 0 }; 32768],
            heads: [0; 8192],
            count: 0,
        }
    }

    // The number of the name that begins at `at`, if it is known. Its bucket b is walked from the latest name back.
    fn find(&self, at: usize, b: usize) -> Option<usize>
        requires { (at < length self.now.text.now) × (b ≡ bucket (key_at self.now.text.now at)) × (b < 8192) }
        ensures { Found self.now at result }
    {
        let mut h = self.heads[b] as usize;
        while h != 0 {
            let k = h - 1;
            let entry = self.entries[k];
            if same_name(self.text, at, entry.first as usize) {
                return Some(k);
            }
            h = entry.link as usize;
        }
        None
    }

    // The number of the name that begins at `at`; a new name gets the next number, and is the latest of its bucket.
    pub fn number(&mut self, at: usize) -> usize
        requires at_in_bounds { (at < length self.old.text.now) × (length (key_at self.old.text.now at) ≤ 15) }
        requires room { self.old.count < 32768 }
        ensures { Numbered self.old at self.new result }
    {
        let b = bucket_of(self.text, at);
        let count = self.count;
        let number = self.find(at, b).unwrap_or(count);
        if number == count {
            self.entries[count] = Entry {
                first: at as u16,
                link: self.heads[b],
            };
            self.heads[b] = (count + 1) as u16;
        }
        self.count = count.max(number + 1);
        number
    }

    // The records of the names, and zeros behind them.
    pub fn write_list(&self, list: &mut [u8])
        requires { 16 * self.now.count ≤ length list.old }
        ensures { list.new ≡ filled (list_of (named self.now.text.now (firsts self.now.entries) self.now.count)) list.old }
    {
        moving::clear(list, 0, list.len());
        for k in 0..self.count {
            write_key(self.text, self.entries[k].first as usize, list, k * 16);
        }
    }
}
