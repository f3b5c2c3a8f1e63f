// Cells counted and cleared along a mask. `reach` counts the cells of two rows in common, `close_counted` clears the cells of a mask.
// Both walk the mask by its hops, over the words that have a cell alone. `reach` counts a run of whole words by sums of the cells before
// each word, which it counts on as far as it needs them and `close_counted` forgets from the first word that it clears. How far the
// sums are known stands in their last entry, a number of the caller's buffer, since the definition `counted_to` reads it there.
#![tactic(auto)]

ghost use Rattle.std.specs.Prelude.{◌≡◌, ℕ, ◌+◌, ◌<◌, ◌≤◌, length, get_or};
ghost use Rattle.std.specs.Int.Count.{ones};
ghost use Rattle.cells.specs.Cells.{common, Closed};
ghost use Rattle.cells_count.specs.Hops.{Hops, counted_to, Counted, Onward};

// Begins the sums of the words: none is counted yet.
pub fn count_none(words: &[u64], counts: &mut [u64])
    requires { (length counts.old ≡ length words.now + 2) × (length words.now ≤ 158) }
    ensures { Counted words.now counts.new }
{
    counts[0] = 0;
    counts[words.len() + 1] = 0;
}

// Counts on to word e.
fn count_to(words: &[u64], counts: &mut [u64], e: usize)
    requires { Counted words.now counts.old × ((e ≤ length words.now) × (length words.now ≤ 158)) }
    ensures { Counted words.now counts.new
        × (e ≤ counted_to words.now counts.new) }
{
    let last = words.len() + 1;
    let known = counts[last] as usize;
    if e <= known {
        return;
    }
    let mut sum = counts[known];
    for q in known..e {
        sum += ones_of(words[q]);
        counts[q + 1] = sum;
    }
    counts[last] = e as u64;
}

// Forgets the sums past word q.
fn count_back(words: &[u64], counts: &mut [u64], q: usize)
    requires { Counted words.now counts.old × ((q ≤ length words.now) × (length words.now ≤ 158)) }
    ensures { Counted words.now counts.new
        × (counted_to words.now counts.new ≤ q) }
{
    let last = words.len() + 1;
    if q < counts[last] as usize {
        counts[last] = q as u64;
    }
}

// How many cells a word has.
fn ones_of(x: u64) -> u64
    ensures { (result ≡ ones x) × (result ≤ 64) }
{
    u64::from(x.count_ones())
}

// How many cells are set in both.
pub fn reach(held: &[u64], counts: &mut [u64], mask: &[u64], hop: &[u8]) -> u64
    requires { (length held.now ≡ length mask.now)
        × ((length held.now ≤ 158) × (Counted held.now counts.old × Hops mask.now hop.now)) }
    ensures { (result ≡ common held.now mask.now) × Counted held.now counts.new }
{
    let mut sum: u64 = 0;
    let mut q = 0;
    // a while: the place goes on by hops, not by one
    while q < held.len() {
        let e = usize::from(hop[q]);
        let m = mask[q];
        if m == !0 {
            count_to(held, counts, e);
            sum += counts[e] - counts[q];
        } else {
            let x = held[q] & m;
            if x != 0 {
                sum += ones_of(x);
            }
        }
        q = e;
    }
    sum
}

// The word of the mask after word q that may have a cell.
pub fn onward(mask: &[u64], hop: &[u8], q: usize) -> usize
    requires { Hops mask.now hop.now × ((q < length mask.now) × (length mask.now ≤ 158)) }
    ensures { Onward mask.now q result }
{
    if mask[q] == !0 {
        return q + 1;
    }
    usize::from(hop[q])
}

// The first word of the mask that may have a cell.
fn first_word(mask: &[u64], hop: &[u8]) -> usize
    requires { Hops mask.now hop.now × (length mask.now ≤ 158) }
    ensures { (result ≤ length mask.now) × ((p : ℕ) → p < result → get_or mask.now p 0 ≡ 0) }
{
    if !mask.is_empty() && mask[0] == 0 {
        return usize::from(hop[0]);
    }
    0
}

// Clears the cells of the mask; the sums that have one of its words are forgotten.
pub fn close_counted(held: &mut [u64], counts: &mut [u64], mask: &[u64], hop: &[u8])
    requires { (length held.old ≡ length mask.now)
        × ((length held.old ≤ 158) × (Counted held.old counts.old × Hops mask.now hop.now)) }
    ensures { Closed held.old mask.now held.new
        × Counted held.new counts.new }
{
    let n = held.len();
    let mut q = first_word(mask, hop);
    count_back(held, counts, q);
    // a while: the place goes on by hops, not by one
    while q < n {
        held[q] &= !mask[q];
        q = onward(mask, hop, q);
    }
}
