// The bids of a text: each line judged test by test, and put into tables.
#![tactic(auto)]

ghost use Rattle.std.specs.Prelude.{◌≡◌, cond, not, ◌&&◌, ◌||◌, ◌+◌, ◌≤◌, ◌<◌, length, drop, replicate, leb};
ghost use Rattle.std.specs.Prelude.{ltb, eqb};
ghost use Rattle.tender.specs.Limits.{within, max_price, max_bidder, max_bids, max_windows, is_single};
ghost use Rattle.tender.specs.Tables.{bid_table, window_table};
ghost use Rattle.cells.specs.Cells.{cell};
ghost use Rattle.numbers.specs.Members.{members};
ghost use Rattle.reader_parts.specs.Words.{cut};
ghost use Rattle.reader_parts.specs.Scan.{to_next, Ended};
ghost use Rattle.reader_forms.specs.Line.{line_of, lines_of};
ghost use Rattle.reader_forms.specs.LineFront.{first_line};
ghost use Rattle.reader_line.specs.Answer.{Room};
ghost use Rattle.reader_parts.specs.Flaws.{is_empty, is_late};
ghost use Rattle.reader_text.specs.Read.{bid_fault_in};
ghost use Rattle.reader_bids.specs.Steps.{verdict, Taken, LinesFilled};

mod rows;

use reader_line::line::{Line, read_line};
use reader_parts::{Flaw, Read};
use rows::put_row;
use tender::{Kind, Refusal, Tender};

// Whether this is a 1,001st bid or has a 33rd window.
fn too_many(bids: usize, windows: usize) -> bool
    ensures { result ≡ (leb max_bids bids || ltb max_windows windows) }
{
    tender::MAX_BIDS <= bids || tender::MAX_WINDOWS < windows
}

// Whether the bidder or the price is outside its limits.
#[tactic(auto, unfolding(tender::specs::Limits::within))]
fn outside(bidder: u64, price: u64) -> bool
    ensures { result ≡ (not (within 1 max_bidder bidder) || ltb max_price price) }
{
    bidder < 1 || tender::MAX_BIDDER < bidder || tender::MAX_PRICE < price
}

// Whether the tender takes one window a bid and there are more.
fn several(tender: Tender, windows: usize) -> bool
    ensures { result ≡ (is_single tender.kind && ltb 1 windows) }
{
    tender.kind == Kind::Single && 1 < windows
}

// The first fault of the bid on this line, after so many bids: too many, outside the limits, several windows, an empty or a late window,
// a bidder that is used. `used` is the set of used bidder numbers.
fn judge(
    tender: Tender,
    line: u64,
    bids: usize,
    used: &[u64],
    bidder: u64,
    price: u64,
    windows: usize,
    flaw: Option<Flaw>,
) -> Result<(), Refusal>
    requires { length used.now ≡ 15625 }
    ensures { result ≡ verdict line (bid_fault_in tender bids bidder price windows (is_empty flaw) (is_late flaw)
        (eqb (cell (members used.now) bidder) 1)) }
{
    if too_many(bids, windows) {
        return Err(Refusal::TooMany { line });
    }
    if outside(bidder, price) {
        return Err(Refusal::OutsideLimits { line });
    }
    if several(tender, windows) {
        return Err(Refusal::SeveralWindows { line });
    }
    if let Some(flaw) = flaw {
        return match flaw {
            Flaw::Empty => Err(Refusal::EmptyWindow { line }),
            Flaw::Late => Err(Refusal::LateWindow { line }),
        };
    }
    if numbers::holds(used, bidder as usize) {
        return Err(Refusal::BidderRepeated { line });
    }
    Ok(())
}

// The line of this number, which begins at `at`, after k bids with m windows: a bid, which goes into the tables and whose bidder is used
// from then on, with how many windows it has and where the next line begins; or the line's fault.
fn take_line(
    text: &[u8],
    at: usize,
    line: u64,
    tender: Tender,
    k: usize,
    m: usize,
    used: &mut [u64],
    rows: &mut [u64],
    windows: &mut [u64],
) -> Result<Read<usize>, Refusal>
    requires { (k ≤ 1000) × Room text.now at m windows.old × (length used.old ≡ 15625) × (length rows.old ≡ bid_table)
        × (at < length text.now)
        × Ended text.now }
    ensures { Taken (line_of (first_line (drop at text.now))) (at + to_next 10 (drop at text.now) + 1) tender
        line k m (members used.old) rows.old windows.old result (members used.new)
        rows.new windows.new }
{
    let Some(read) = read_line(text, at, windows, m) else {
        return Err(Refusal::BadForm { line });
    };
    match read.value {
        Line::Bid {
            bidder,
            price,
            count,
            flaw,
        } => {
            judge(tender, line, k, used, bidder, price, count, flaw)?;
            put_row(rows, k, bidder, price, m as u64, count as u64);
            numbers::add(used, bidder as usize);
            Ok(Read {
                value: count,
                next: read.next,
            })
        }
        Line::Tender(_, _) => Err(Refusal::BadForm { line }),
        Line::Reserve(_) => Err(Refusal::ReserveMisplaced { line }),
    }
}

// How many rows of each table were filled.
#[derive(Clone, Copy)]
pub struct Counts {
    pub bids: usize,
    pub windows: usize,
}

// The bids of lines that all end with byte 10, from `at` on, where line `from` begins, in the first rows of the two tables: how many bids
// and windows, or the first faulty line.
pub fn read_bids(
    text: &[u8],
    at: usize,
    from: u64,
    tender: Tender,
    used: &mut [u64],
    rows: &mut [u64],
    windows: &mut [u64],
) -> Result<Counts, Refusal>
    requires { (at ≤ length text.now) × (from ≤ 65536) × (length text.now ≤ 65536) × (used.old ≡ replicate 15625 1)
        × (length rows.old ≡ bid_table)
        × (length windows.old ≡ window_table)
        × Ended text.now }
    ensures { LinesFilled tender from (lines_of (cut 10 (drop at text.now))) result rows.new
        windows.new }
{
    let mut k: usize = 0;
    let mut m: usize = 0;
    let mut i = at;
    // a while: the place goes on by lines, not by one
    while i < text.len() {
        let line = from + k as u64;
        let taken = take_line(text, i, line, tender, k, m, used, rows, windows)?;
        k += 1;
        m += taken.value;
        i = taken.next;
    }
    Ok(Counts {
        bids: k,
        windows: m,
    })
}
