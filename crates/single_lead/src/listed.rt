// The bids of a single tender, which its crates pass on together.
ghost use Rattle.std.specs.Prelude.{◌≡◌, true, ℕ, ◌<◌, ◌≤◌, get_or, length};
ghost use Rattle.tender.specs.Limits.{max_entries};
ghost use Rattle.cover.specs.CriticalPrice.{sum};
ghost use Rattle.single_lead.specs.Listed.{has};

// Bid i has the cells from starts[i] up to ends[i] and asks prices[i]; `order` has each bid, in order of start. There are no more bids than
// a tender has entries, and their prices have a sum below the largest word.
#[derive(Clone, Copy)]
pub struct Bids<'a> {
    pub starts: &'a [u64],
    pub ends: &'a [u64],
    pub prices: &'a [u64],
    pub order: &'a [usize],
    pub ghost few: { length prices.now ≤ max_entries },
    pub ghost small: { sum prices.now < 18446744073709551615 },
    pub ghost room: { (length prices.now ≤ length starts.now) × (length prices.now ≤ length ends.now)
        × (length prices.now ≤ length order.now) },
    pub ghost within: { (q : ℕ) → q < length prices.now → get_or order.now q 0 < length prices.now },
    pub ghost every: { (i : ℕ) → i < length prices.now → has order.now (length prices.now) i ≡ true },
    pub ghost sorted: { (q r : ℕ) → q ≤ r → r < length prices.now
        → get_or starts.now (get_or order.now q 0) 0 ≤ get_or starts.now (get_or order.now r 0) 0 },
}
