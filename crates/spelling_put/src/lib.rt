// Spells parts of texts and lists onto a page, which is a lent buffer with how many of its bytes are written. Each call puts bytes after
// those and goes on by as many.
#![tactic(auto)]

ghost use Rattle.std.specs.Prelude.{◌≡◌, [], ◌∷◌, ◌+◌, ◌≤◌, ◌<◌, length, drop};
ghost use Rattle.spelling.specs.Decimal.{decimal};
ghost use Rattle.spelling.specs.Lines.{numbers, pair_line, one_line, kind_word, refused_line};
ghost use Rattle.spelling.specs.Written.{Written};
ghost use Rattle.spelling.specs.Delivered.{Delivered};
ghost use Rattle.spelling_put.specs.Puts.{Puts};

use tender::{Kind, Refusal};

// A lent buffer, of which `at` bytes are written.
#[derive(Drop)]
pub struct Page<'a> {
    pub buf: &'a mut [u8],
    pub at: usize,
}

// n in base ten, at the end of `digits`: answers where it starts.
fn spell(n: u64, digits: &mut [u8]) -> usize
    requires { length digits.old ≡ 20 }
    ensures { (drop result digits.new ≡ decimal n) × (result ≤ 20) }
{
    let mut v = n;
    let mut i: usize = 20;
    // a while: it ends with the digits of n, at no place known before
    while 9 < v {
        i -= 1;
        digits[i] = b'0' + (v % 10) as u8;
        v /= 10;
    }
    i -= 1;
    digits[i] = b'0' + (v % 10) as u8;
    i
}

impl<'a> Page<'a> {
    // A buffer of which no byte is written.
    pub fn new(buf: &'a mut [u8]) -> Page<'a>
        ensures same { result.buf.ghost_name ≡ buf.entry.ghost_name }
        ensures start { (result.at ≡ 0) × (result.buf.now ≡ buf.old) }
    {
        Page { buf, at: 0 }
    }

    // One byte.
    pub fn put(&mut self, b: u8)
        requires { self.old.at < length self.old.buf.now }
        ensures { Puts self.old (b ∷ []) self.new }
    {
        self.buf[self.at] = b;
        self.at += 1;
    }

    // All of `s`.
    pub fn put_all(&mut self, s: &[u8])
        requires { self.old.at + length s.now ≤ length self.old.buf.now }
        ensures { Puts self.old s.now self.new }
    {
        let end = self.at + s.len();
        self.buf[self.at..end].copy_from_slice(s);
        self.at = end;
    }

    // n in base ten.
    pub fn put_decimal(&mut self, n: u64)
        requires { self.old.at + 20 ≤ length self.old.buf.now }
        ensures { Puts self.old (decimal n) self.new }
    {
        let mut digits = [0u8; 20];
        let i = spell(n, &mut digits);
        self.put_all(&digits[i..]);
    }

    // A space and n in base ten.
    pub fn put_number(&mut self, n: u64)
        requires { self.old.at + 21 ≤ length self.old.buf.now }
        ensures { Puts self.old (32 ∷ decimal n) self.new }
    {
        self.put(b' ');
        self.put_decimal(n);
    }

    // The two numbers that end a line.
    pub fn put_numbers(&mut self, a: u64, b: u64)
        requires { self.old.at + 44 ≤ length self.old.buf.now }
        ensures { Puts self.old (numbers a b) self.new }
    {
        self.put_number(a);
        self.put_number(b);
        self.put_all(b")\n")
    }

    // The line (word a b).
    pub fn put_pair(&mut self, word: &[u8], a: u64, b: u64)
        requires { self.old.at + length word.now + 45 ≤ length self.old.buf.now }
        ensures { Puts self.old (pair_line word.now a b) self.new }
    {
        self.put(b'(');
        self.put_all(word);
        self.put_numbers(a, b);
    }

    // The line (word n).
    pub fn put_one(&mut self, word: &[u8], n: u64)
        requires { self.old.at + length word.now + 24 ≤ length self.old.buf.now }
        ensures { Puts self.old (one_line word.now n) self.new }
    {
        self.put(b'(');
        self.put_all(word);
        self.put_number(n);
        self.put_all(b")\n");
    }

    // The keyword of a kind.
    pub fn put_kind(&mut self, kind: Kind)
        requires { self.old.at + 6 ≤ length self.old.buf.now }
        ensures { Puts self.old (kind_word kind) self.new }
    {
        match kind {
            Kind::Single => self.put_all(&tender::SINGLE),
            Kind::Multi => self.put_all(&tender::MULTI),
        }
    }
}

// The line of a refusal, which is all that its text has for a list.
pub fn put_refused(buf: &mut [u8], refusal: Refusal) -> usize
    requires { 52 ≤ length buf.old }
    ensures { Written buf.old 0 (refused_line refusal) buf.new result }
{
    let n = tender::number(refusal);
    let at = tender::place(refusal);
    let mut page = Page::new(buf);
    page.put_pair(b"refused", n, at);
    page.at
}

// Delivers `s` at the start of a lent buffer: its length, where there is room; else 0, and the buffer stays as it was.
pub fn deliver(s: &[u8], out: &mut [u8]) -> usize
    ensures { Delivered s.now out.old out.new result }
{
    if out.len() < s.len() {
        return 0;
    }
    let mut page = Page::new(out);
    page.put_all(s);
    page.at
}
