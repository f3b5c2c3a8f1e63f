// 1,000 bids of a minute each at a cent, put to the award over plain lists of 1,002 places.
use crate::{Told, with_reserve};
use std::io;
use tender::{Kind, Tender};

// The number in cell i of the bid table: bid j has minute j - 1, at a cent.
fn bid_cell(i: usize) -> u64 {
    let row = (i / 4 % 1000) as u64;
    match i % 4 {
        0 => row + 1,
        2 => row,
        _ => 1,
    }
}

// And of the window table.
fn window_cell(i: usize) -> u64 {
    ((i % 2000 + 1) / 2) as u64
}

// Puts the bids to the award of the tender's kind, and writes what it answers, the first place, the last bid's and the two after
// it. Before the call every place says 7.
fn show(rt: &impl Print, label: &str, tender: Tender) -> io::Result<()> {
    let mut bids = [0u64; tender::BID_TABLE];
    let mut windows = [0u64; 2000];
    let mut won = [7u64; 1002];
    let mut cents = [7u64; 1002];
    for (i, cell) in bids.iter_mut().enumerate() {
        *cell = bid_cell(i);
    }
    for (i, cell) in windows.iter_mut().enumerate() {
        *cell = window_cell(i);
    }
    let answer = award::settle(
        tender.kind,
        tender,
        1000,
        &bids,
        &windows,
        &mut won,
        &mut cents,
    );
    println!(rt; "{label}: {}", Told(answer))?;
    println!(rt; "  1: {} {}", won[0], cents[0])?;
    println!(rt; "  1000: {} {}", won[999], cents[999])?;
    println!(rt; "  1001: {} {}", won[1000], cents[1000])?;
    println!(rt; "  1002: {} {}", won[1001], cents[1001])
}

// Beside the house the bids win together at its price, and lose above it.
pub(crate) fn cases(rt: &impl Print) -> io::Result<()> {
    let single = tender::plain(Kind::Single, 0, 1000);
    let multi = tender::plain(Kind::Multi, 0, 1000);
    show(rt, "single, 1000 bids", single)?;
    show(
        rt,
        "single, 1000 bids, reserve 1001",
        with_reserve(single, 1001),
    )?;
    show(
        rt,
        "single, 1000 bids, reserve 1000",
        with_reserve(single, 1000),
    )?;
    show(
        rt,
        "single, 1000 bids, reserve 999",
        with_reserve(single, 999),
    )?;
    show(
        rt,
        "multi, 1000 bids, reserve 1001",
        with_reserve(multi, 1001),
    )?;
    show(
        rt,
        "multi, 1000 bids, reserve 999",
        with_reserve(multi, 999),
    )
}
