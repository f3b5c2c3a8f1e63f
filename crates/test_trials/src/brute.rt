// Another implementation of both awards, for up to seven entries: every set of them, every price. The house is the entry after the
// bids, and has every cell. Sums and products wrap; they are small.

// What is weighed: the price of each entry, its cells as bits, and how many cells the tender has.
#[derive(Clone, Copy)]
pub(crate) struct Entries {
    pub(crate) prices: [u64; 7],
    pub(crate) masks: [u64; 7],
    pub(crate) length: u64,
}

// An entry that a round may take: the bit of its place, its cells as bits, its price, and how many open cells it reaches.
#[derive(Clone, Copy)]
struct Offer {
    place: u64,
    mask: u64,
    price: u64,
    reach: u64,
}

// Those numbers below n, at most 64 of them, that are picked, as bits.
pub(crate) fn bits<F: Fn(u64) -> bool>(n: u64, picked: F) -> u64
    requires { F.IsAlwaysCallable picked }
{
    let mut set: u64 = 0;
    for x in 0..n.min(64) {
        if picked(x) {
            set |= 1 << x;
        }
    }
    set
}

// Whether the set has the number.
pub(crate) fn within(set: u64, x: usize) -> bool {
    x < 64 && (set >> x) % 2 == 1
}

impl Offer {
    // Whether it asks less for a cell than the other.
    fn beats(&self, other: &Offer) -> bool {
        self.price.wrapping_mul(other.reach) < other.price.wrapping_mul(self.reach)
    }
}

impl Entries {
    // The bits of the tender's cells.
    pub(crate) fn cells(&self) -> u64 {
        bits(self.length, |_| true)
    }

    // How many of the entries have the cell.
    fn bidders_of(&self, x: u64) -> usize {
        self.masks
            .iter()
            .filter(|mask| within(**mask, x as usize))
            .count()
    }

    // The first cell of the tender with this many bidders.
    pub(crate) fn cell_with(&self, bidders: usize) -> Option<u64> {
        (0..self.length).find(|x| self.bidders_of(*x) == bidders)
    }

    // What the entries of the set ask in all.
    pub(crate) fn cost_of(&self, set: u64) -> u64 {
        let mut cost: u64 = 0;
        for (i, price) in self.prices.iter().enumerate() {
            if within(set, i) {
                cost = cost.wrapping_add(*price);
            }
        }
        cost
    }

    // The cells that the entries of the set have.
    fn cells_of(&self, set: u64) -> u64 {
        let mut cells: u64 = 0;
        for (i, mask) in self.masks.iter().enumerate() {
            if within(set, i) {
                cells |= *mask;
            }
        }
        cells
    }

    // The least-cost covering set, without entry `skip` where one is named; the least number of those.
    pub(crate) fn least_cover(&self, skip: Option<usize>) -> Option<u64> {
        let cells = self.cells();
        (0..128)
            .filter(|set| self.cells_of(*set) == cells && !skip.is_some_and(|i| within(*set, i)))
            .min_by_key(|set| self.cost_of(*set))
    }

    // The entry that a round takes of those not in `taken`, where one reaches an open cell.
    fn pick(&self, held: u64, taken: u64) -> Option<Offer> {
        let mut best: Option<Offer> = None;
        for i in 0..7 {
            let mask = self.masks[i];
            let offer = Offer {
                place: 1 << i,
                mask,
                price: self.prices[i],
                reach: u64::from((held & mask).count_ones()),
            };
            let open = 0 < offer.reach && taken & offer.place == 0;
            if open && best.is_none_or(|b| offer.beats(&b)) {
                best = Some(offer);
            }
        }
        best
    }

    // The winners of the greedy run.
    pub(crate) fn greedy(&self) -> u64 {
        let mut held = self.cells();
        let mut taken: u64 = 0;
        for _ in 0..7 {
            if let Some(offer) = self.pick(held, taken) {
                held &= !offer.mask;
                taken |= offer.place;
            }
        }
        taken
    }

    // Whether entry k is taken at this price, all else standing.
    fn taken_at(&self, k: usize, price: u64) -> bool {
        let mut asked = *self;
        if let Some(own) = asked.prices.get_mut(k) {
            *own = price;
        }
        within(asked.greedy(), k)
    }

    // The largest price below `limit` with which entry k is taken, trying each from there down.
    pub(crate) fn largest_price(&self, k: usize, limit: u64) -> Option<u64> {
        (0..limit).rev().find(|price| self.taken_at(k, *price))
    }
}
