// The lines of a list put onto a page; `put_awarded` puts all of an award that is made into a lent buffer, from its start on.
#![tactic(auto)]

ghost use Rattle.std.specs.Prelude.{◌++◌, ◌+◌, ◌*◌, ◌≤◌, ◌<◌, length};
ghost use Rattle.tender.specs.Tables.{bid_width};
ghost use Rattle.spelling.specs.Written.{Written};
ghost use Rattle.spelling_put.specs.Puts.{Puts};
ghost use Rattle.listing_text.specs.Lines.{award_line, win_line, win_lines, house_line, last_lines};

use spelling_put::Page;
use tender::{Tender, Totals};

// The line (award single 0 100).
fn put_award(page: &mut Page<'_>, tender: Tender)
    requires { page.old.at + 57 ≤ length page.old.buf.now }
    ensures { Puts page.old (award_line tender) page.new }
{
    page.put_all(b"(award ");
    page.put_kind(tender.kind);
    page.put_numbers(tender.window.start, tender.window.end);
}

// The line (win bidder cents), where the bid won. The flag is the number that the award's plain list has, as `win_line` says it.
fn put_win(page: &mut Page<'_>, bidder: u64, flag: u64, cents: u64)
    requires { page.old.at + 48 ≤ length page.old.buf.now }
    ensures { Puts page.old (win_line bidder flag cents) page.new }
{
    if flag == 1 {
        page.put_pair(b"win", bidder, cents);
    }
}

// The lines of the first n bids that won, in entry order.
fn put_wins(page: &mut Page<'_>, bids: &[u64], won: &[u64], cents: &[u64], n: usize)
    requires { (bid_width * n ≤ length bids.now) × ((n ≤ length won.now)
        × ((n ≤ length cents.now) × (page.old.at + 48 * n ≤ length page.old.buf.now))) }
    ensures { Puts page.old (win_lines bids.now won.now cents.now n) page.new }
{
    for i in 0..n {
        put_win(page, bids[tender::BID_WIDTH * i], won[i], cents[i]);
    }
}

// The line (house price), where the house won.
fn put_house(page: &mut Page<'_>, reserve: Option<u64>, won: bool)
    requires { page.old.at + 29 ≤ length page.old.buf.now }
    ensures { Puts page.old (house_line reserve won) page.new }
{
    if !won {
        return;
    }
    match reserve {
        None => {}
        Some(price) => page.put_one(b"house", price),
    }
}

// The lines after the winners': the house's, and (total cost paid).
fn put_last(page: &mut Page<'_>, tender: Tender, totals: Totals)
    requires { page.old.at + 79 ≤ length page.old.buf.now }
    ensures { Puts page.old (last_lines tender.reserve totals) page.new }
{
    put_house(page, tender.reserve, totals.house);
    page.put_pair(b"total", totals.cost, totals.paid);
}

// The list of an award that is made.
pub fn put_awarded(
    list: &mut [u8],
    tender: Tender,
    n: usize,
    bids: &[u64],
    won: &[u64],
    cents: &[u64],
    totals: Totals,
) -> usize
    requires { (bid_width * n ≤ length bids.now) × ((n ≤ length won.now)
        × ((n ≤ length cents.now) × (48 * n + 136 ≤ length list.old))) }
    ensures { Written list.old 0 (award_line tender
        ++ win_lines bids.now won.now cents.now n ++ last_lines tender.reserve totals)
        list.new result }
{
    let mut page = Page::new(list);
    put_award(&mut page, tender);
    put_wins(&mut page, bids, won, cents, n);
    put_last(&mut page, tender, totals);
    page.at
}
