// Cells written down as pairs of a word and a mask: `cut` writes those that a row of words has in common with a mask, `all_held` says
// whether all of them are set in a row, and `close_pairs` clears them there. A pair is two numbers of the caller's buffer, one after the
// other, since the definition `in_pair` reads them so.
#![tactic(auto)]

ghost use Rattle.std.specs.Prelude.{◌≡◌, ◌+◌, ◌-◌, ◌*◌, ◌<◌, ◌≤◌, length, set};
ghost use Rattle.cells.specs.Cells.{common};
ghost use Rattle.cells_count.specs.Hops.{Hops, Counted};
ghost use Rattle.cells_pairs.specs.Pairs.{in_pairs, Paired, Cut, Covering, Shut};

// Writes pair c: the number of a word, and some of its cells.
fn put(pairs: &mut [u64], c: usize, q: usize, x: u64)
    requires { 2 * c + 1 < length pairs.old }
    ensures { pairs.new ≡ set (set pairs.old (2 * c) q) (2 * c + 1) x }
{
    pairs[2 * c] = q as u64;
    pairs[2 * c + 1] = x;
}

// Writes the cells that are held and in the mask as pairs from `at` on. Answers the place after them.
pub fn cut(held: &[u64], mask: &[u64], hop: &[u8], pairs: &mut [u64], at: usize) -> usize
    requires { (length held.now ≡ length mask.now) × ((length held.now ≤ 158) × (Hops mask.now hop.now
        × ((2 * (at + common held.now mask.now) ≤ length pairs.old) × (at ≤ 10112)))) }
    ensures { Cut held.now mask.now pairs.old pairs.new at result }
{
    let n = held.len();
    let mut q = 0;
    let mut c = at;
    // a while: the place goes on by hops, not by one
    while q < n {
        let x = held[q] & mask[q];
        if x != 0 {
            put(pairs, c, q, x);
            c += 1;
        }
        q = cells_count::onward(mask, hop, q);
    }
    c
}

// Whether all cells of the pairs a up to z are held.
pub fn all_held(held: &[u64], pairs: &[u64], a: usize, z: usize) -> bool
    requires { Paired pairs.now (length held.now) a z }
    ensures { Covering held.now pairs.now a z result }
{
    for p in a..z {
        let q = pairs[2 * p] as usize;
        if pairs[2 * p + 1] & !held[q] != 0 {
            return false;
        }
    }
    true
}

// Clears the cells of the pairs a up to z; the sums of the cells before each word are forgotten.
pub fn close_pairs(held: &mut [u64], counts: &mut [u64], pairs: &[u64], a: usize, z: usize)
    requires { Paired pairs.now (length held.old) a z × ((length held.old ≤ 158) × Counted held.old counts.old) }
    ensures { Shut held.old (in_pairs pairs.now a (z - a)) held.new
        × Counted held.new counts.new }
{
    counts[held.len() + 1] = 0;
    for p in a..z {
        let q = pairs[2 * p] as usize;
        held[q] &= !pairs[2 * p + 1];
    }
}
