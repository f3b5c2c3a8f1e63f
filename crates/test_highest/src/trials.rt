// Random tenders, each bid asked for: every answer is held against what the award gives where the bid names each price from 0 to past it.
use crate::lots;
use crate::lots::Lot;
use tender::{Kind, Refusal};
use test_tools::count;

// How many tenders of a kind were awarded, without a reserve and with one.
#[derive(Clone, Copy, Default)]
pub(crate) struct Awarded {
    pub(crate) plain: u64,
    pub(crate) reserved: u64,
}

// How many tenders of each kind were awarded, and how many refused; what was asked for and tried; and how many answers disagree.
#[derive(Clone, Copy, Default)]
pub(crate) struct Tried {
    pub(crate) single: Awarded,
    pub(crate) multi: Awarded,
    pub(crate) refused: u64,
    pub(crate) asked: u64,
    pub(crate) winners: u64,
    pub(crate) below: u64,
    pub(crate) none: u64,
    pub(crate) prices: u64,
    pub(crate) wrong: u64,
}

// The award's row for a bid, and why it declines, where it does.
#[derive(Clone, Copy)]
struct Fate {
    won: bool,
    cents: u64,
    refusal: Option<Refusal>,
}

// How the bid in row i fares at the price in its row.
fn fares(lot: &Lot, i: usize) -> Fate {
    let row = i % 6;
    let mut won = [0u64; 6];
    let mut cents = [0u64; 6];
    let answer = award::settle(
        lot.tender.kind,
        lot.tender,
        lot.count,
        &lot.bids,
        &lot.windows,
        &mut won,
        &mut cents,
    );
    Fate {
        won: won[row] == 1,
        cents: cents[row],
        refusal: answer.err(),
    }
}

// Whether it wins at this price.
fn wins(lot: &Lot, i: usize, price: u64) -> bool {
    fares(&lot.changed(lot.count, 4 * (i % 6) + 1, price), i).won
}

// The largest price that the answer lets win, where it names one.
type Asked = Result<Option<u64>, Refusal>;

// Whether the answer lets this price win.
fn lets_win(answer: Asked, price: u64) -> bool {
    answer.is_ok_and(|most| most.is_some_and(|p| price <= p))
}

// How many prices to try, from 0 on: to two past the answer, which is at most 64, eight cells at 8 each; or, where none wins, past what the
// others ask in all, at most 68.
fn prices_for(answer: Asked) -> u64 {
    match answer {
        Ok(Some(p)) => p.min(117) + 3,
        _ => 70,
    }
}

// Whether the answer fits how bid i fares as it is: a multi winner is paid the answer, a single winner too, or one cent more where it loses
// at its payment; a loser asks for more than the answer, or there is none.
fn fits(lot: &Lot, i: usize, own: Fate, answer: Asked) -> bool {
    match (answer, lot.tender.kind) {
        (Err(_), _) => false,
        (Ok(None), _) => !own.won,
        (Ok(Some(p)), _) if !own.won => p < lot.bids[4 * (i % 6) + 1],
        (Ok(Some(p)), Kind::Multi) => p == own.cents,
        (Ok(Some(p)), Kind::Single) => {
            let mut most = p;
            count(&mut most, !wins(lot, i, own.cents));
            own.cents == most
        }
    }
}

impl Tried {
    // Bid i of a tender that is awarded, asked for and tried with each price.
    fn try_bid(&mut self, lot: &Lot, i: usize) {
        let answer = lot.asked(lot.bidder(i));
        let own = fares(lot, i);
        count(&mut self.asked, true);
        count(&mut self.winners, own.won);
        count(&mut self.below, own.won && !lets_win(answer, own.cents));
        count(&mut self.none, !lets_win(answer, 0));
        count(&mut self.wrong, !fits(lot, i, own, answer));
        for price in 0..prices_for(answer) {
            count(&mut self.prices, true);
            count(
                &mut self.wrong,
                wins(lot, i, price) != lets_win(answer, price),
            );
        }
    }

    // A random tender. Where the award refuses it so is every bidder number; else each bid is tried, and the numbers in the rows past
    // the last bid, and one that no row has, are refused as no bidder's.
    fn try_tender(&mut self, seed: u64, kind: Kind, reserved: bool) {
        let lot = lots::draw(seed, kind, reserved);
        let refusal = fares(&lot, 0).refusal;
        let tried = if refusal.is_none() { lot.count } else { 0 };
        let awarded = match kind {
            Kind::Single => &mut self.single,
            Kind::Multi => &mut self.multi,
        };
        count(&mut awarded.plain, refusal.is_none() && !reserved);
        count(&mut awarded.reserved, refusal.is_none() && reserved);
        count(&mut self.refused, refusal.is_some());
        for i in 0..tried.min(7) {
            self.try_bid(&lot, i);
        }
        for i in tried..7 {
            let right = Err(refusal.unwrap_or(Refusal::NoSuchBidder));
            count(&mut self.wrong, lot.asked(lot.bidder(i)) != right);
        }
    }
}

// So many random tenders: single, multi, and each with a reserve.
pub(crate) fn all(tenders: usize) -> Tried {
    let mut t = Tried::default();
    let mut seed: u64 = 20261115;
    for i in 0..tenders {
        let kind = if i % 2 == 0 {
            Kind::Single
        } else {
            Kind::Multi
        };
        seed = seed.wrapping_add(11400714819323198485);
        t.try_tender(seed, kind, 1 < i % 4);
    }
    t
}
