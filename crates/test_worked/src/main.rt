// Reads the texts of the worked cases 9 and 10, texts with a reserve, texts with prices in both spellings, and their near misses, and
// writes what each answers.
#![tactic(auto)]

mod cases;
mod prices;
mod show;
mod texts;

use show::{Told, show, show_all, show_prices};
use std::io;
use test_tools::Output;
use texts::{bids_below, long_text, repeated, reserve_last, reserved, windows_of};

// Reads a text of two bids and three windows into these tables, whose cells are all 7, and tells whether the cells from the
// given places on stand.
fn lend(
    rt: &impl Print,
    label: &str,
    bids: &mut [u64],
    windows: &mut [u64],
    past_bids: usize,
    past_windows: usize,
) -> io::Result<()> {
    let text = "(tender multi 0 10)\n(bid 21 12 (0 4) (6 8))\n(bid 22 15 (4 10))\n";
    let answer = reader::read(text.as_bytes(), bids, windows);
    println!(rt; "{label}: {}", Told(answer))?;
    let mut others = bids
        .iter()
        .skip(past_bids)
        .chain(windows.iter().skip(past_windows));
    if others.all(|cell| *cell == 7) {
        println!(rt; "  the other cells stand")?;
    }
    Ok(())
}

fn lent_tables(rt: &impl Print) -> io::Result<()> {
    lend(
        rt,
        "tables of 2 and 3 rows",
        &mut [7u64; 8],
        &mut [7u64; 6],
        8,
        6,
    )?;
    lend(
        rt,
        "tables with a row more and a cell past it",
        &mut [7u64; 13],
        &mut [7u64; 9],
        8,
        6,
    )?;
    lend(
        rt,
        "a bid row too few",
        &mut [7u64; 7],
        &mut [7u64; 6],
        0,
        0,
    )?;
    lend(
        rt,
        "a window row too few",
        &mut [7u64; 8],
        &mut [7u64; 5],
        0,
        0,
    )
}

// A reserve line among many bids: it counts among the lines, and not among the bids.
fn long_reserves(rt: &impl Print) -> io::Result<()> {
    show(rt, "a reserve and 1000 bids", reserved(1001).bytes())?;
    show(rt, "a reserve and 1001 bids", reserved(1002).bytes())?;
    show(rt, "a reserve after 1000 bids", reserve_last(1001).bytes())?;
    Ok(())
}

fn near_misses(rt: &impl Print) -> io::Result<()> {
    show_all(rt, &cases::LATE_ENDS)?;
    show_all(rt, &cases::RESERVES)?;
    long_reserves(rt)?;
    show_prices(rt, &prices::POINTED)?;
    show_all(rt, &prices::LIMITS)?;
    show_all(rt, &prices::MISSPELT)?;
    show_all(rt, &prices::ELSEWHERE)?;
    show_all(rt, &cases::BYTES)?;
    show(
        rt,
        "byte 200",
        b"(tender single 0 100)\n(bid 11 3\xc8 (0 50))\n",
    )?;
    show_all(rt, &cases::SEVERAL)
}

fn tell_all(rt: &impl Print) -> io::Result<()> {
    show_all(rt, &cases::WORKED_NINE)?;
    near_misses(rt)?;
    show(rt, "32 windows", windows_of(32).bytes())?;
    show(rt, "33 windows", windows_of(33).bytes())?;
    show(rt, "1000 bids", bids_below(1001).bytes())?;
    show(rt, "1001 bids", bids_below(1002).bytes())?;
    show(
        rt,
        "bidder of line 2 again on line 1001",
        repeated(1000).bytes(),
    )?;
    show(rt, "65536 bytes", long_text("500000").bytes())?;
    show(rt, "65537 bytes", long_text("5000000").bytes())?;
    lent_tables(rt)
}

// A program of this repository has no exit status, so an output that cannot be written is not told.
fn main() {
    let _ = tell_all(&Output);
}
