// Calls the awards and compares each answer, to the last lent cell, with the other implementation's.
ghost use Rattle.std.specs.Prelude.{◌≤◌};

use crate::random::{Lot, below, minute};
use crate::{brute, random, rules};
use tender::{Kind, Refusal, Span, Tender, Totals};
use test_tools::{count, next};

// How many tenders of a kind were awarded and how many declined.
#[derive(Clone, Copy, Default)]
pub(crate) struct Ended {
    pub(crate) awarded: u64,
    pub(crate) declined: u64,
}

// What was tried by kind; how many tenders had a reserve, in how many awards the house is booked, and owners are paid beside it; how
// many false prices were named; and how many answers disagree.
#[derive(Clone, Copy, Default)]
pub(crate) struct Tried {
    pub(crate) single: Ended,
    pub(crate) multi: Ended,
    pub(crate) reserved: u64,
    pub(crate) booked: u64,
    pub(crate) beside: u64,
    pub(crate) prices: u64,
    pub(crate) wrong: u64,
}

#[derive(Clone, Copy, Default)]
pub(crate) struct Checked {
    pub(crate) sound: u64,
    pub(crate) faulty: u64,
    pub(crate) short: u64,
    pub(crate) wrong: u64,
}

// The cells of the rows that are lent: a flag and the cents of each bid.
#[derive(Clone, Copy, PartialEq, Eq)]
struct Rows {
    won: [u64; 9],
    cents: [u64; 9],
}

// What is lent in the cells of the rows, to see which of them are written.
const OLD: u64 = 77;

const LENT: Rows = Rows {
    won: [OLD; 9],
    cents: [OLD; 9],
};

// What a call answers, and the rows as it leaves them.
#[derive(Clone, Copy, PartialEq, Eq)]
struct Settled {
    answer: Result<Totals, Refusal>,
    rows: Rows,
}

// What bid i is paid where it wins among these winners. In a multi tender no bid can ask more than 15 for each of 12 cells, and win
// against others that cover, nor more than the house for all of them.
fn payment(lot: &Lot, kind: Kind, i: usize, cost: u64) -> Option<u64> {
    let entries = &lot.entries;
    match kind {
        Kind::Single => {
            let others = entries.cost_of(entries.least_cover(Some(i))?);
            let own = entries.prices.get(i).copied()?;
            Some(others.wrapping_add(own).wrapping_sub(cost))
        }
        Kind::Multi => entries.largest_price(i, 200),
    }
}

// The other implementation's award, with the house among the entries: its cost has the house in it, the sum paid has not. The cells past
// the last bid stay.
fn right_award(lot: &Lot, kind: Kind) -> Option<Settled> {
    let entries = &lot.entries;
    let winners = match kind {
        Kind::Single => entries.least_cover(None)?,
        Kind::Multi => entries.greedy(),
    };
    let cost = entries.cost_of(winners);
    let mut paid: u64 = 0;
    let mut rows = LENT;
    for i in 0..lot.count.min(9) {
        let won = brute::within(winners, i);
        let cents = if won { payment(lot, kind, i, cost)? } else { 0 };
        rows.won[i] = u64::from(won);
        rows.cents[i] = cents;
        paid = paid.wrapping_add(cents);
    }
    let house = lot.reserve.is_some() && brute::within(winners, lot.count);
    Some(Settled {
        answer: Ok(Totals { cost, paid, house }),
        rows,
    })
}

// The first minute of the tender's cell x.
fn minute_of(lot: &Lot, x: u64) -> u64 {
    minute(lot.start.wrapping_add(x), lot.width)
}

pub(crate) fn tender_of(lot: &Lot, kind: Kind) -> Tender {
    Tender {
        kind,
        window: Span {
            start: minute_of(lot, 0),
            end: minute_of(lot, lot.entries.length),
        },
        reserve: lot.reserve,
    }
}

// Why the tender is refused: for the first minute in no bid, or, where there is none, for the first in one bid; with a reserve for
// neither.
pub(crate) fn right_refusal(lot: &Lot) -> Option<Refusal> {
    if lot.reserve.is_some() {
        return None;
    }
    let uncovered = lot.entries.cell_with(0).map(|x| Refusal::MinuteUncovered {
        minute: minute_of(lot, x),
    });
    let lone = lot.entries.cell_with(1).map(|x| Refusal::OneBidder {
        minute: minute_of(lot, x),
    });
    uncovered.or(lone)
}

// Whether an answer and the rows are the right ones.
fn settled_right(lot: &Lot, kind: Kind, settled: Settled) -> bool {
    match right_refusal(lot) {
        Some(refusal) => {
            settled
                == Settled {
                    answer: Err(refusal),
                    rows: LENT,
                }
        }
        None => right_award(lot, kind) == Some(settled),
    }
}

// How a bid fares: whether it wins, and the cents that it is paid; and the answer to the tender.
#[derive(Clone, Copy)]
pub(crate) struct Fate {
    pub(crate) wins: bool,
    cents: u64,
    pub(crate) answer: Result<Totals, Refusal>,
}

impl Fate {
    // What the owner is left with: the payment, or, where the bid does not win, the true cost.
    pub(crate) fn left(&self, cost: u64) -> u64 {
        if self.wins { self.cents } else { cost }
    }
}

// How bid i of these tables fares where it names this price, all else standing.
pub(crate) fn fate_of(
    lot: &Lot,
    kind: Kind,
    mut bids: [u64; 28],
    windows: &[u64],
    i: usize,
    price: u64,
) -> Fate {
    let row = i % 7;
    let mut rows = LENT;
    bids[4 * row + 1] = price;
    let answer = award::settle(
        kind,
        tender_of(lot, kind),
        lot.count,
        &bids,
        windows,
        &mut rows.won,
        &mut rows.cents,
    );
    Fate {
        wins: rows.won[row] == 1,
        cents: rows.cents[row],
        answer,
    }
}

// The true cost of the owner of bid i, which is the price in the lot.
pub(crate) fn cost_of(lot: &Lot, i: usize) -> u64 {
    lot.entries.prices[i % 7]
}

// What the owner of bid i is left with where the bid names this price.
pub(crate) fn left_with(lot: &Lot, kind: Kind, i: usize, price: u64) -> u64 {
    fate_of(lot, kind, lot.bids, &lot.windows, i, price).left(cost_of(lot, i))
}

// The prices that are named in place of the true cost: from 0 up to this one.
const FALSE_PRICES: u64 = 50;

impl Tried {
    // Bid i, tried with each of these prices: none may leave its owner with more than the true cost does, nor that with less than the
    // cost.
    fn name_prices(&mut self, lot: &Lot, kind: Kind, i: usize) {
        let cost = cost_of(lot, i);
        let honest = left_with(lot, kind, i, cost);
        count(&mut self.wrong, honest < cost);
        for price in 0..FALSE_PRICES {
            count(&mut self.prices, true);
            count(&mut self.wrong, honest < left_with(lot, kind, i, price));
        }
    }

    fn add_end(&mut self, kind: Kind, awarded: bool) {
        let ended = match kind {
            Kind::Single => &mut self.single,
            Kind::Multi => &mut self.multi,
        };
        count(&mut ended.awarded, awarded);
        count(&mut ended.declined, !awarded);
    }

    // One tender, tried; one of 127 with false prices too.
    fn add(&mut self, lot: &Lot, kind: Kind, i: u64) {
        let mut rows = LENT;
        let answer = award::settle(
            kind,
            tender_of(lot, kind),
            lot.count,
            &lot.bids,
            &lot.windows,
            &mut rows.won,
            &mut rows.cents,
        );
        count(
            &mut self.wrong,
            !settled_right(lot, kind, Settled { answer, rows }),
        );
        count(&mut self.reserved, lot.reserve.is_some());
        match answer {
            Ok(totals) => {
                self.add_end(kind, true);
                count(&mut self.booked, totals.house);
                count(&mut self.beside, totals.house && 0 < totals.paid);
            }
            Err(_) => self.add_end(kind, false),
        }
        if i % 127 == 0 {
            for bid in 0..lot.count {
                self.name_prices(lot, kind, bid);
            }
        }
    }
}

// Both awards on so many random tenders each.
pub(crate) fn awards(n: u64) -> Tried {
    let mut t = Tried::default();
    random::series(20261115, n, |lot, kind, i| t.add(lot, kind, i));
    t
}

// Numbers that a rule of some cell refuses or just takes.
const ODD: [u64; 11] = [
    0,
    1,
    2,
    33,
    10080,
    10081,
    999999,
    1000000,
    100000000,
    100000001,
    18446744073709551615,
];

// The lot with one cell of a table, or the reserve, set to an odd number.
fn broken(mut lot: Lot, state: u64) -> Lot {
    let s = next(state);
    let v = ODD[below(next(s), 11) as usize];
    match s % 5 {
        0 => lot.reserve = Some(v),
        1 | 2 => lot.bids[(s / 8 % 28) as usize] = v,
        _ => lot.windows[(s / 8 % 42) as usize] = v,
    }
    lot
}

// How many of `most` cells are lent: all, or some fewer.
fn part(most: usize, state: u64) -> usize
    ensures { result ≤ most }
{
    let less = (state / 8 % 6) as usize;
    if state % 3 == 0 {
        most.saturating_sub(less)
    } else {
        most
    }
}

impl Checked {
    // The award's answer to the tables against the other check, with the count, the tables or the rows off at times.
    fn add(&mut self, lot: &Lot, kind: Kind) {
        let tender = tender_of(lot, kind);
        let s = next(lot.state);
        let s2 = next(s);
        let stated = ((lot.count as u64).wrapping_add(below(s, 5) / 4) % 16) as usize;
        let lent = part(9, next(s2));
        let bids = &lot.bids[..part(28, s)];
        let windows = &lot.windows[..part(42, s2)];
        let mut rows = LENT;
        let fault = rules::fault(kind, tender, stated, bids, windows);
        let answer = award::settle(
            kind,
            tender,
            stated,
            bids,
            windows,
            &mut rows.won[..lent],
            &mut rows.cents[..lent],
        );
        match answer {
            Err(Refusal::BadTables { row }) => {
                count(&mut self.faulty, true);
                count(&mut self.wrong, fault != Some(row) || rows != LENT);
            }
            Err(Refusal::RowsTooFew) => {
                count(&mut self.short, true);
                count(
                    &mut self.wrong,
                    fault.is_some() || stated <= lent || rows != LENT,
                );
            }
            Err(_) => self.add_sound(fault.is_some() || lent < stated || lot.reserve.is_some()),
            Ok(_) => self.add_sound(fault.is_some() || lent < stated),
        }
    }

    fn add_sound(&mut self, wrong: bool) {
        count(&mut self.sound, true);
        count(&mut self.wrong, wrong);
    }
}

// So many random tables, most of them with an odd number in a cell, a count off by one or a table cut short.
pub(crate) fn faults(n: u64) -> Checked {
    let mut f = Checked::default();
    let mut state: u64 = 7;
    for i in 0..n {
        let kind = if i % 2 == 0 {
            Kind::Multi
        } else {
            Kind::Single
        };
        let drawn = random::draw(state, kind, 0);
        state = drawn.state;
        let lot = if i % 4 < 3 {
            broken(drawn, state)
        } else {
            drawn
        };
        f.add(&lot, kind);
    }
    f
}
