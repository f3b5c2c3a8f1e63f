// For each word the bids that have a cell there, as chains. A bid with a long run of whole words shares cells with nearly every other:
// it is entered in no chain, but in the set `ever`; so is one for which there is no room. The nodes are numbers in one lent slice, as the
// rule "no heap, fixed memory" asks; Index says how they are packed.
#![tactic(auto)]

ghost use Rattle.std.specs.Prelude.{◌≡◌, ◌+◌, ◌*◌, ◌<◌, ◌≤◌, length};
ghost use Rattle.cells_count.specs.Hops.{Hops};
ghost use Rattle.multi_market.specs.Market.{word_row, Market, Hopping};
ghost use Rattle.multi_index.specs.Index.{Chained, Indexed};
ghost use Rattle.multi_index.specs.Enlisted.{Pushed, Enlisted, SaysWide};

use multi_market::Bids;

// Puts node t, of bid i with the cells m, in front of word q's chain.
fn push(index: &mut [u64], q: usize, t: usize, i: usize, m: u64)
    requires { (q < t) × ((2 * t + 2 ≤ length index.old) × ((length index.old ≤ 200000) × (i < 1024))) }
    ensures { Pushed index.old q t i m index.new }
{
    let x = index[2 * q];
    index[2 * t] = x / 1024 * 1024 + i as u64;
    index[2 * t + 1] = m;
    index[2 * q] = 1024 * t as u64;
}

// Enters bid i in the chain of each word where it has a cell, with nodes from `at` on. Answers the place after them.
fn enlist_row(masks: &[u64], hop: &[u8], w: usize, i: usize, index: &mut [u64], at: usize) -> usize
    requires { (w ≤ 158) × ((w * i + w ≤ length masks.now) × ((length hop.now ≡ length masks.now)
        × (Hops (word_row masks.now w i) (word_row hop.now w i) × ((i < 1024) × (Chained i index.old at
        × ((2 * (at + w) ≤ length index.old) × (length index.old ≤ 200000))))))) }
    ensures { Enlisted masks.now w i index.old at index.new result }
{
    let a = w * i;
    let e = a + w;
    let mut q = 0;
    let mut t = at;
    // a while: q goes on by hops, not by one
    while q < w {
        let m = masks[a + q];
        if m != 0 {
            push(index, q, t, i, m);
            t += 1;
        }
        q = cells_count::onward(&masks[a..e], &hop[a..e], q);
    }
    t
}

// Whether bid i has more than three whole words in a row.
fn is_wide(masks: &[u64], hop: &[u8], w: usize, i: usize) -> bool
    requires { (w ≤ 158) × ((w * i + w ≤ length masks.now) × ((length hop.now ≡ length masks.now)
        × (Hops (word_row masks.now w i) (word_row hop.now w i) × (i < 1024)))) }
    ensures { SaysWide (word_row masks.now w i) (word_row hop.now w i) result }
{
    let a = w * i;
    let mut q = 0;
    // a while: q goes on by hops, not by one
    while q < w {
        let e = usize::from(hop[a + q]);
        if masks[a + q] == !0 && q + 3 < e {
            return true;
        }
        q = e;
    }
    false
}

// The chains with no bid.
fn clear_heads(index: &mut [u64])
    requires { (316 ≤ length index.old) × (length index.old ≤ 200000) }
    ensures { Chained 0 index.new 158 }
{
    for q in 0..158 {
        index[2 * q] = 0;
    }
}

// Enters each bid in the chains of its words, or in `ever`.
pub fn enlist(bids: Bids, index: &mut [u64], ever: &mut [u64])
    requires { (316 ≤ length index.old) × ((length index.old ≤ 200000) × (length ever.old ≡ 16)) }
    ensures { Indexed (length bids.entry.prices.now) bids.entry.masks.now bids.entry.w index.new ever.new }
{
    cells::clear(ever);
    clear_heads(index);
    let mut t = 158;
    for i in 0..bids.prices.len() {
        if index.len() < 2 * (t + bids.w) || is_wide(bids.masks, bids.hop, bids.w, i) {
            cells::add(ever, i);
        } else {
            t = enlist_row(bids.masks, bids.hop, bids.w, i, index, t);
        }
    }
}
