// Trials of minutes held back: an owner offers part of the minutes truly had, at any price, and may gain no more than by offering them
// all at true cost.
use crate::parts::{Part, Tables};
use crate::random::Lot;
use crate::{compare, parts, random};
use tender::{Kind, Refusal, Totals};
use test_tools::{count, next};

// How many parts were offered, and how many of them leave the tender thin, so that it is refused; how many prices were named with them,
// how many of these win, and how many gain more than the truth; and how many answers are awards or refusals and should not be.
#[derive(Clone, Copy, Default)]
pub(crate) struct Withheld {
    pub(crate) parts: u64,
    pub(crate) thin: u64,
    pub(crate) prices: u64,
    pub(crate) winning: u64,
    pub(crate) gains: u64,
    pub(crate) wrong: u64,
}

// Whether the tender is thin where bid i has these cells.
fn thin_with(lot: &Lot, i: usize, cells: u64) -> bool {
    let mut l = *lot;
    if let Some(mask) = l.entries.masks.get_mut(i) {
        *mask = (cells >> (lot.start % 64)) & lot.entries.cells();
    }
    compare::right_refusal(&l).is_some()
}

// Whose offer is tried: that of bid i in a tender of this kind, with this true cost, whose owner the truth leaves with `honest`; and
// whether with every price.
#[derive(Clone, Copy)]
struct Owner {
    kind: Kind,
    i: usize,
    cost: u64,
    honest: u64,
    every: bool,
}

// A thin tender is refused for a minute in no bid or in one, any other awarded.
fn answered(answer: Result<Totals, Refusal>, thin: bool) -> bool {
    match answer {
        Err(Refusal::MinuteUncovered { .. } | Refusal::OneBidder { .. }) => thin,
        Err(_) => false,
        Ok(_) => !thin,
    }
}

// How many prices there are to name: from 0 to a cent above the highest that can win, which is what the house asks; else what four
// others ask together, or 15 for each cell.
fn prices_of(lot: &Lot, kind: Kind) -> u64 {
    let most = match (lot.reserve, kind) {
        (Some(price), _) => price,
        (None, Kind::Multi) => lot.entries.length.wrapping_mul(15),
        (None, Kind::Single) => 60,
    };
    most.wrapping_add(2)
}

impl Owner {
    // The owner of bid i.
    fn new(lot: &Lot, kind: Kind, i: usize, every: bool) -> Owner {
        let cost = compare::cost_of(lot, i);
        Owner {
            kind,
            i,
            cost,
            honest: compare::left_with(lot, kind, i, cost),
            every,
        }
    }

    // Whether part k is offered with the price: with each, or with 0, the true cost and one of 32.
    fn names(&self, k: u64, price: u64) -> bool {
        self.every || price == 0 || price == self.cost || price % 32 == k % 32
    }
}

impl Withheld {
    // The tables put to the award where the owner's bid names this price.
    fn name_price(&mut self, lot: &Lot, owner: &Owner, t: &Tables, price: u64, thin: bool) {
        let fate = compare::fate_of(lot, owner.kind, t.bids, &t.windows, owner.i, price);
        count(&mut self.prices, true);
        count(&mut self.winning, fate.wins);
        count(&mut self.gains, owner.honest < fate.left(owner.cost));
        count(&mut self.wrong, !answered(fate.answer, thin));
    }

    // Part k, offered with the prices that are named with it.
    fn offer(&mut self, lot: &Lot, owner: &Owner, k: u64, part: Part) {
        let thin = thin_with(lot, owner.i, part.cells);
        let t = parts::tables_of(lot, owner.i, part);
        count(&mut self.parts, true);
        count(&mut self.thin, thin);
        for price in 0..prices_of(lot, owner.kind) {
            if owner.names(k, price) {
                self.name_price(lot, owner, &t, price, thin);
            }
        }
    }

    // Each part of the cells that the bid has, or 64 drawn.
    fn offer_parts(&mut self, lot: &Lot, owner: &Owner) {
        let had = parts::cells_had(lot, owner.i);
        let mut state = lot.state;
        for k in 0..parts::parts_of(owner.kind) {
            state = next(state);
            let part = parts::part_of(lot, owner.kind, had, k, state);
            if part.cells != 0 {
                self.offer(lot, owner, k, part);
            }
        }
    }

    // Each bid of a tender of at most five; in one of 13 tenders with every price.
    fn add(&mut self, lot: &Lot, kind: Kind, i: u64) {
        if 5 < lot.count {
            return;
        }
        for bid in 0..lot.count {
            self.offer_parts(lot, &Owner::new(lot, kind, bid, i % 13 == 0));
        }
    }
}

// So many random tenders of each kind.
pub(crate) fn offers(n: u64) -> Withheld {
    let mut w = Withheld::default();
    random::series(20261117, n, |lot, kind, i| w.add(lot, kind, i));
    w
}
