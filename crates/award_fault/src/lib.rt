// The tables lent to an award, checked: `fault` finds the place of refusal 9, and `Faultless` has tables that it found none in.
// `award_check` Faults has the rules.
#![tactic(auto)]

ghost use Rattle.std.specs.Prelude.{◌≡◌, ◌&&◌, [], ◌+◌, ◌*◌, ◌/◌, ◌≤◌, length, drop, leb, ltb, eqb};
ghost use Rattle.std.proofs.Math.Option.{none};
ghost use Rattle.tender.specs.Limits.{most_windows, within, lawful_reserve, sound_tender, lawful, every};
ghost use Rattle.tender.specs.Tables.{rows_of, windows_of, bid_width, window_width};
ghost use Rattle.award_check.specs.Faults.{keeps, row_fault, fault_of};
ghost use Rattle.award_fault.specs.Checks.{checked_fault};

use tender::{Kind, Tender};

// A tender and its tables, which break no rule.
#[derive(Clone, Copy)]
pub struct Faultless<'a> {
    pub tender: Tender,
    pub count: usize,
    pub bids: &'a [u64],
    pub windows: &'a [u64],
    ghost faultless: { fault_of tender.kind tender count bids.now windows.now ≡ none },
}

#[tactic(auto, unfolding(tender::specs::Limits::most_windows))]
fn most_windows(tender: Tender) -> u64
    ensures { result ≡ most_windows tender.kind }
{
    match tender.kind {
        Kind::Single => 1,
        Kind::Multi => 32,
    }
}

fn window_lawful(start: u64, end: u64) -> bool
    ensures { result ≡ (ltb start end && leb end 10080) }
{
    start < end && end <= 10080
}

// Whether the windows from `first` on, `count` of them, are lawful.
fn windows_lawful(windows: &[u64], first: usize, count: usize) -> bool
    requires { first + count ≤ length windows.now / window_width }
    ensures { result ≡ every lawful (windows_of count (drop (window_width * first) windows.now)) }
{
    for j in 0..count {
        let s = windows[tender::WINDOW_WIDTH * (first + j)];
        let e = windows[tender::WINDOW_WIDTH * (first + j) + 1];
        if !window_lawful(s, e) {
            return false;
        }
    }
    true
}

#[tactic(auto, unfolding(tender::specs::Limits::within))]
fn between(a: u64, z: u64, n: u64) -> bool
    ensures { result ≡ within a z n }
{
    a <= n && n <= z
}

// Whether a row keeps its rules, where the windows of the row before end at `at`.
fn row_keeps(
    tender: Tender,
    windows: &[u64],
    at: usize,
    bidder: u64,
    price: u64,
    first: u64,
    count: u64,
) -> bool
    requires { at ≤ length windows.now / window_width }
    ensures { result ≡ keeps tender windows.now
        at (record { bidder = bidder; price = price; first = first; count = count }) }
{
    if !between(1, 999999, bidder) {
        return false;
    }
    if 100000000 < price {
        return false;
    }
    if !between(1, most_windows(tender), count) {
        return false;
    }
    if first != at as u64 {
        return false;
    }
    if ((windows.len() / tender::WINDOW_WIDTH - at) as u64) < count {
        return false;
    }
    windows_lawful(windows, at, count as usize)
}

// The place of the first row that breaks a rule, counted from 1, where there is one.
fn row_fault(tender: Tender, count: usize, bids: &[u64], windows: &[u64]) -> Option<u64>
    requires { count ≤ length bids.now / bid_width }
    ensures { checked_fault result ≡ row_fault tender windows.now 1 [] 0 (rows_of count bids.now) }
{
    // The bidder numbers of the rows passed.
    let mut used = [1u64; numbers::WORDS];
    let mut at = 0;
    for j in 0..count {
        let place = j as u64 + 1;
        if 1000 <= j {
            return Some(place);
        }
        let bidder = bids[tender::BID_WIDTH * j];
        let windows_here = bids[tender::BID_WIDTH * j + 3];
        if !row_keeps(
            tender,
            windows,
            at,
            bidder,
            bids[tender::BID_WIDTH * j + 1],
            bids[tender::BID_WIDTH * j + 2],
            windows_here,
        ) {
            return Some(place);
        }
        if numbers::holds(&used, bidder as usize) {
            return Some(place);
        }
        numbers::add(&mut used, bidder as usize);
        at += windows_here as usize;
    }
    None
}

#[tactic(auto, unfolding(tender::specs::Limits::lawful_reserve))]
fn reserve_lawful(reserve: Option<u64>) -> bool
    ensures { result ≡ lawful_reserve reserve }
{
    match reserve {
        None => true,
        Some(p) => p <= tender::MAX_PRICE,
    }
}

// Whether the tender's own window and its reserve are lawful.
#[tactic(auto, unfolding(tender::specs::Limits::sound_tender, tender::specs::Limits::lawful))]
fn tender_sound(tender: Tender) -> bool
    ensures { result ≡ sound_tender tender }
{
    window_lawful(tender.window.start, tender.window.end) && reserve_lawful(tender.reserve)
}

// The place of refusal 9 by the award of this kind, where `count` bids are stated: the first faulty row, counted from 1; 0 for the tender,
// the kind or the stated count.
pub fn fault(kind: Kind, tender: Tender, count: usize, bids: &[u64], windows: &[u64]) -> Option<u64>
    ensures { checked_fault result ≡ fault_of kind tender count bids.now windows.now }
{
    if kind != tender.kind {
        return Some(0);
    }
    if !tender_sound(tender) {
        return Some(0);
    }
    if bids.len() / tender::BID_WIDTH < count {
        return Some(0);
    }
    row_fault(tender, count, bids, windows)
}
