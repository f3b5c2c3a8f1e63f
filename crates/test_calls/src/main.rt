// Runs `award::award_single` and `award::award_multi` over a lent slice of award rows, and writes what each call answers and every
// row as the call leaves it. Before each call every row says won and 7 cents. Then runs `award::settle` on 1,000 bids, the most
// there can be, with a reserve and without.
#![tactic(auto)]

mod many;
mod rows;

use std::{fmt, io};
use tender::{AwardRow, Kind, Refusal, Tender, Totals};
use test_tools::Output;

// An answer as it is told: awarded with cost, sum paid and whether the house won, or refused with number and place.
#[derive(Clone, Copy)]
struct Told(Result<Totals, Refusal>);

impl fmt::Display for Told {
    fn fmt<W: fmt::Write>(&self, f: &mut fmt::Formatter<W>) -> fmt::Result {
        match self.0 {
            Ok(totals) => {
                let word = if totals.house { "with" } else { "without" };
                write!(
                    f,
                    "awarded {} {} {word} the house",
                    totals.cost, totals.paid
                )
            }
            Err(r) => write!(f, "refused {} {}", tender::number(r), tender::place(r)),
        }
    }
}

// The bid table and the window table.
#[derive(Clone, Copy)]
struct Tables<'a> {
    bids: &'a [u64],
    windows: &'a [u64],
}

// Puts the tender to the award of this kind, with five rows, and writes what it answers, and each row: won or lost, and the cents.
fn show(
    rt: &impl Print,
    kind: Kind,
    label: &str,
    tender: Tender,
    count: usize,
    tables: Tables,
) -> io::Result<()> {
    let sevens = [AwardRow {
        won: true,
        cents: 7,
    }; 5];
    let Tables { bids, windows } = tables;
    let called = rows::settled(kind, tender, count, bids, windows, sevens);
    println!(rt; "{label}: {}", Told(called.answer))?;
    for row in called.rows {
        let word = if row.won { "won" } else { "lost" };
        println!(rt; "  {word} {}", row.cents)?;
    }
    Ok(())
}

// The tables hold six bids, of which the first `count` are put.
fn single_cases(rt: &impl Print, tender: Tender, tables: Tables) -> io::Result<()> {
    let longer = tender::plain(Kind::Single, 0, 10);
    for (label, tender, count) in [
        ("single, five bids", tender, 5),
        ("single, four of them", tender, 4),
        ("single, a row short", tender, 6),
        ("single, more bids stated than lent", tender, 7),
        ("single, a minute in no bid", longer, 5),
        ("single, minutes in one bid", tender, 2),
    ] {
        show(rt, Kind::Single, label, tender, count, tables)?;
    }
    show(
        rt,
        Kind::Multi,
        "single, put to the other award",
        tender,
        5,
        tables,
    )
}

fn multi_cases(rt: &impl Print, tender: Tender, tables: Tables) -> io::Result<()> {
    let longer = tender::plain(Kind::Multi, 0, 11);
    for (label, tender, count) in [
        ("multi, four bids", tender, 4),
        ("multi, five bids", tender, 5),
        ("multi, a row short", tender, 6),
        ("multi, a minute in no bid", longer, 4),
        ("multi, minutes in one bid", tender, 2),
    ] {
        show(rt, Kind::Multi, label, tender, count, tables)?;
    }
    show(
        rt,
        Kind::Single,
        "multi, put to the other award",
        tender,
        4,
        tables,
    )
}

// The tender with this reserve.
fn with_reserve(tender: Tender, price: u64) -> Tender {
    Tender {
        reserve: Some(price),
        ..tender
    }
}

// The least cost of the bids is 7. The house wins below it, has no row, and stands in for bidders that a minute lacks.
fn single_reserves(rt: &impl Print, tender: Tender, tables: Tables) -> io::Result<()> {
    let longer = tender::plain(Kind::Single, 0, 10);
    for (label, tender, price, count) in [
        ("single, reserve 7", tender, 7, 5),
        ("single, reserve 6", tender, 6, 5),
        ("single, minutes in one bid, reserve 8", tender, 8, 2),
        ("single, a minute in no bid, reserve 9", longer, 9, 5),
        ("single, no bids, reserve 5000", tender, 5000, 0),
        ("single, a row short, reserve 8", tender, 8, 6),
    ] {
        show(
            rt,
            Kind::Single,
            label,
            with_reserve(tender, price),
            count,
            tables,
        )?;
    }
    Ok(())
}

// The first round takes a bid at 2 cents a minute, if the house asks no less for ten minutes.
fn multi_reserves(rt: &impl Print, tender: Tender, tables: Tables) -> io::Result<()> {
    let longer = tender::plain(Kind::Multi, 0, 11);
    for (label, tender, price, count) in [
        ("multi, reserve 20", tender, 20, 4),
        ("multi, reserve 19", tender, 19, 4),
        ("multi, one bid, reserve 100", tender, 100, 1),
        ("multi, a minute in no bid, reserve 40", longer, 40, 4),
        ("multi, no bids, reserve 0", tender, 0, 0),
        ("multi, a row short, reserve 20", tender, 20, 6),
    ] {
        show(
            rt,
            Kind::Multi,
            label,
            with_reserve(tender, price),
            count,
            tables,
        )?;
    }
    Ok(())
}

// Row 1 has a fault. A reserve above its limit is one of the tender.
fn reserve_limits(rt: &impl Print, tender: Tender, tables: Tables) -> io::Result<()> {
    let most = with_reserve(tender, 100000000);
    let above = with_reserve(tender, 100000001);
    for (label, tender, count) in [
        ("single, bidder 0 in row 1", tender, 5),
        ("single, reserve 100000000 before it", most, 5),
        ("single, reserve 100000001 before it", above, 5),
        ("single, no bids, reserve 100000000", most, 0),
        ("single, no bids, reserve 100000001", above, 0),
    ] {
        show(rt, Kind::Single, label, tender, count, tables)?;
    }
    Ok(())
}

const SINGLES: &str =
    "(tender single 0 9)\n(bid 1 3 (0 5))\n(bid 2 4 (4 9))\n(bid 3 10 (0 9))\n(bid 4 4 (0 6))\n\
    (bid 5 5 (6 9))\n(bid 6 6 (5 9))\n";

// Six bids of one window each, of which five have a row.
fn singles(rt: &impl Print) -> io::Result<()> {
    let mut bids = [0u64; 24];
    let mut windows = [0u64; 12];
    let Ok(filled) = reader::read(SINGLES.as_bytes(), &mut bids, &mut windows) else {
        return Ok(());
    };
    let tender = filled.tender;
    let windows = &windows;
    let tables = Tables {
        bids: &bids,
        windows,
    };
    single_cases(rt, tender, tables)?;
    single_reserves(rt, tender, tables)?;
    bids[9] = 100000001;
    let tables = Tables {
        bids: &bids,
        windows,
    };
    show(
        rt,
        Kind::Single,
        "single, a price above the limit in row 3",
        tender,
        5,
        tables,
    )?;
    bids[0] = 0;
    reserve_limits(
        rt,
        tender,
        Tables {
            bids: &bids,
            windows,
        },
    )
}

const MULTIS: &str =
    "(tender multi 0 10)\n(bid 21 12 (0 4) (6 8))\n(bid 22 15 (4 10))\n(bid 23 30 (0 10))\n\
    (bid 24 9 (8 10) (4 5))\n(bid 25 31 (0 10))\n(bid 26 32 (0 10))\n";

// The third worked tender, and two more bids.
fn multis(rt: &impl Print) -> io::Result<()> {
    let mut bids = [0u64; 24];
    let mut windows = [0u64; 16];
    let Ok(filled) = reader::read(MULTIS.as_bytes(), &mut bids, &mut windows) else {
        return Ok(());
    };
    let tender = filled.tender;
    let windows = &windows;
    let tables = Tables {
        bids: &bids,
        windows,
    };
    multi_cases(rt, tender, tables)?;
    multi_reserves(rt, tender, tables)?;
    bids[6] = 3;
    let tables = Tables {
        bids: &bids,
        windows,
    };
    show(
        rt,
        Kind::Multi,
        "multi, a window skipped in row 2",
        tender,
        4,
        tables,
    )
}

fn tell_all(rt: &impl Print) -> io::Result<()> {
    singles(rt)?;
    multis(rt)?;
    many::cases(rt)
}

// A program of this repository has no exit status, so an output that cannot be written is not told.
fn main() {
    let _ = tell_all(&Output);
}
