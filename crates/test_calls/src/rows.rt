// An award over five rows by value: the rows are lent to the call as a slice, and returned as it leaves them.
ghost use Rattle.award_outcome.specs.Promise.{Promise};

use tender::{AwardRow, Kind, Refusal, Tender, Totals};

// What a call answers, and the rows as it leaves them.
#[derive(Clone, Copy)]
pub struct Called {
    pub answer: Result<Totals, Refusal>,
    pub rows: [AwardRow; 5],
}

// The award of a tender of this kind.
pub fn settled(
    kind: Kind,
    tender: Tender,
    count: usize,
    bids: &[u64],
    windows: &[u64],
    mut rows: [AwardRow; 5],
) -> Called
    ensures { Promise kind tender count bids.now windows.now rows result.rows result.answer }
{
    let answer = match kind {
        Kind::Single => award::award_single(tender, count, bids, windows, &mut rows),
        Kind::Multi => award::award_multi(tender, count, bids, windows, &mut rows),
    };
    Called { answer, rows }
}
