// Sets of cells as rows of 64-bit words: cell x is bit x % 64 of word x / 64.
// Each function says what every cell is before and after: `close` clears the cells of a mask, `clear` all of them, `add_range` and
// `add` set cells, `holds` reads one, `next` finds the first of one row that is not in another.
#![tactic(auto)]

ghost use Rattle.std.specs.Prelude.{◌≡◌, ◌+◌, ◌*◌, ◌-◌, ◌^◌, ◌<◌, ◌≤◌, length, eqb};
ghost use Rattle.cells.specs.Masks.{masks};
ghost use Rattle.cells.specs.Cells.{cell, Closed, Cleared, Span, RangeAdded, Next};

// Clears the cells of the mask.
pub fn close(held: &mut [u64], mask: &[u64])
    requires { length held.old ≡ length mask.now }
    ensures { Closed held.old mask.now held.new }
{
    for w in 0..held.len() {
        held[w] &= !mask[w];
    }
}

// Clears all cells.
pub fn clear(xs: &mut [u64])
    ensures { Cleared xs.new }
{
    xs.fill(0);
}

// The masks of a word's first k cells, k from 0 to 64. The one place where such a mask is made. A function that names it lays it out
// on its stack; whoever sets many ranges does so once, as a `MaskTable`, and lends that.
pub const MASKS: [u64; 65] = [
    0x0,
    0x1,
    0x3,
    0x7,
    0xf,
    0x1f,
    0x3f,
    0x7f,
    0xff,
    0x1ff,
    0x3ff,
    0x7ff,
    0xfff,
    0x1fff,
    0x3fff,
    0x7fff,
    0xffff,
    0x1ffff,
    0x3ffff,
    0x7ffff,
    0xfffff,
    0x1fffff,
    0x3fffff,
    0x7fffff,
    0xffffff,
    0x1ffffff,
    0x3ffffff,
    0x7ffffff,
    0xfffffff,
    0x1fffffff,
    0x3fffffff,
    0x7fffffff,
    0xffffffff,
    0x1ffffffff,
    0x3ffffffff,
    0x7ffffffff,
    0xfffffffff,
    0x1fffffffff,
    0x3fffffffff,
    0x7fffffffff,
    0xffffffffff,
    0x1ffffffffff,
    0x3ffffffffff,
    0x7ffffffffff,
    0xfffffffffff,
    0x1fffffffffff,
    0x3fffffffffff,
    0x7fffffffffff,
    0xffffffffffff,
    0x1ffffffffffff,
    0x3ffffffffffff,
    0x7ffffffffffff,
    0xfffffffffffff,
    0x1fffffffffffff,
    0x3fffffffffffff,
    0x7fffffffffffff,
    0xffffffffffffff,
    0x1ffffffffffffff,
    0x3ffffffffffffff,
    0x7ffffffffffffff,
    0xfffffffffffffff,
    0x1fffffffffffffff,
    0x3fffffffffffffff,
    0x7fffffffffffffff,
    0xffffffffffffffff,
];

// The table of masks.
#[derive(Clone, Copy)]
pub struct MaskTable {
    pub bits: [u64; 65],
    ghost table: { bits ≡ masks },
}

impl MaskTable {
    pub fn new() -> MaskTable
        ensures { result.bits ≡ masks }
    {
        MaskTable { bits: MASKS }
    }
}

// The mask of a word's first k cells.
fn first_bits(table: &MaskTable, k: usize) -> u64
    requires { k ≤ 64 }
    ensures value { result ≡ 2 ^ k - 1 }
    ensures span { Span 0 k result }
{
    table.bits[k]
}

// The bits lo up to hi.
fn span(table: &MaskTable, lo: usize, hi: usize) -> u64
    requires { (lo ≤ 64) × (hi ≤ 64) }
    ensures { Span lo hi result }
{
    first_bits(table, hi) & !first_bits(table, lo)
}

// Sets the bits lo up to hi of word w.
fn add_bits(table: &MaskTable, words: &mut [u64], w: usize, lo: usize, hi: usize)
    requires { (w < length words.old) × ((lo < 64) × (hi ≤ 64)) }
    ensures { RangeAdded (64 * w + lo) (64 * w + hi) words.old words.new }
{
    words[w] |= span(table, lo, hi);
}

// Sets all cells of the words a up to b.
fn add_words(table: &MaskTable, words: &mut [u64], a: usize, b: usize)
    requires { (a ≤ b) × (b ≤ length words.old) }
    ensures { RangeAdded (64 * a) (64 * b) words.old words.new }
{
    words[a..b].fill(first_bits(table, 64));
}

// Sets the cells s up to e, by the table of masks that is lent.
pub fn add_range_by(table: &MaskTable, words: &mut [u64], s: usize, e: usize)
    requires { (s ≤ e) × ((e ≤ 64 * length words.old) × (length words.old ≤ 65536)) }
    ensures { RangeAdded s e words.old words.new }
{
    if e <= s {
        return;
    }
    let a = s / 64;
    let b = e / 64;
    if a == b {
        add_bits(table, words, a, s % 64, e % 64);
        return;
    }
    add_bits(table, words, a, s % 64, 64);
    add_words(table, words, a + 1, b);
    if e % 64 != 0 {
        add_bits(table, words, b, 0, e % 64);
    }
}

// Sets the cells s up to e.
pub fn add_range(words: &mut [u64], s: usize, e: usize)
    requires { (s ≤ e) × ((e ≤ 64 * length words.old) × (length words.old ≤ 65536)) }
    ensures { RangeAdded s e words.old words.new }
{
    add_range_by(&MaskTable::new(), words, s, e);
}

// Whether cell x is set.
pub fn holds(words: &[u64], x: usize) -> bool
    requires { x < 64 * length words.now }
    ensures { result ≡ eqb (cell words.now x) 1 }
{
    let w = words[x / 64];
    (w >> (x % 64)) & 1 == 1
}

// Sets cell x.
pub fn add(words: &mut [u64], x: usize)
    requires { x < 64 * length words.old }
    ensures { RangeAdded x (x + 1) words.old words.new }
{
    let q = x / 64;
    words[q] |= 1 << (x % 64);
}

// The first cell from word `first` on that is in a and not in b; past the last cell where there is none.
fn next_from(a: &[u64], b: &[u64], first: usize) -> usize
    requires { (length a.now ≤ length b.now) × ((length a.now ≤ 65536) × (first ≤ length a.now)) }
    ensures { Next a.now b.now (64 * first) result }
{
    for q in first..a.len() {
        let m = a[q] & !b[q];
        if m != 0 {
            return 64 * q + m.trailing_zeros() as usize;
        }
    }
    64 * a.len()
}

// The first x from `from` on that is in a and not in b; past the last cell where there is none.
pub fn next(a: &[u64], b: &[u64], from: usize) -> usize
    requires { (length a.now ≤ length b.now) × ((length a.now ≤ 65536) × (from ≤ 64 * length a.now)) }
    ensures { Next a.now b.now from result }
{
    let q = from / 64;
    if q < a.len() {
        let m = (a[q] & !b[q]) >> (from % 64);
        if m != 0 {
            return from + m.trailing_zeros() as usize;
        }
        return next_from(a, b, q + 1);
    }
    64 * a.len()
}
