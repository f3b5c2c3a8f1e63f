// With which price a bid of a text would win: reads it and asks what was read. `highest_text_c` exports `tender_highest` to a host
// program in C (include/tender.h). `specs/Told.antt` says which line it writes.
#![tactic(auto)]

ghost use Rattle.std.specs.Prelude.{◌≡◌, ◌≤◌, Ok, length};
ghost use Rattle.spelling.specs.Written.{Written};
ghost use Rattle.spelling.specs.Delivered.{Delivered};
ghost use Rattle.highest_text.specs.Told.{none_line, highest_line, HighestTold};

use award_fault::Faultless;
use spelling_put::Page;
use tender::Refusal;

// The line of a bid that would win with no price.
fn put_none(buf: &mut [u8], bidder: u64) -> usize
    requires { 52 ≤ length buf.old }
    ensures { Written buf.old 0 (none_line bidder) buf.new result }
{
    let mut page = Page::new(buf);
    page.put_all(b"(highest");
    page.put_number(bidder);
    page.put_all(b" none)\n");
    page.at
}

// The line of a bid and the largest price with which it would win, where one would.
fn put_price(buf: &mut [u8], bidder: u64, price: Option<u64>) -> usize
    requires { 52 ≤ length buf.old }
    ensures { Written buf.old 0 (highest_line bidder (Ok price)) buf.new result }
{
    match price {
        Some(price) => {
            let mut page = Page::new(buf);
            page.put_pair(b"highest", bidder, price);
            page.at
        }
        None => put_none(buf, bidder),
    }
}

// The line of an answer.
fn put_line(buf: &mut [u8], bidder: u64, answer: Result<Option<u64>, Refusal>) -> usize
    requires { 52 ≤ length buf.old }
    ensures { Written buf.old 0 (highest_line bidder answer) buf.new result }
{
    match answer {
        Ok(price) => put_price(buf, bidder, price),
        Err(refusal) => spelling_put::put_refused(buf, refusal),
    }
}

// The line of an answer, where there is room.
fn deliver(bidder: u64, answer: Result<Option<u64>, Refusal>, out: &mut [u8]) -> usize
    ensures { Delivered (highest_line bidder answer) out.old out.new result }
{
    let mut line = [1u8; 52];
    let n = put_line(&mut line, bidder, answer);
    spelling_put::deliver(&line[..n], out)
}

// The largest whole price with which the bid of this number would win if all else stood, as a line: its length, with the line at the
// start of `out` and the bytes past it staying; 0 where it is longer than `out`, which then stays as it was. The tables have room for
// any readable text.
pub fn tender_highest(text: &[u8], bidder: u64, out: &mut [u8]) -> usize
    ensures { HighestTold text.now bidder out.old out.new result }
{
    let mut bids = [1u64; tender::BID_TABLE];
    let mut windows = [1u64; tender::WINDOW_TABLE];
    match reader_fill::fill(text, &mut bids, &mut windows) {
        Ok(filled) => {
            let tables = Faultless {
                tender: filled.tender,
                count: filled.bids,
                bids: &bids,
                windows: &windows,
            };
            let answer = highest::highest_sound(&tables, bidder);
            deliver(bidder, answer, out)
        }
        Err(refusal) => deliver(bidder, Err(refusal), out),
    }
}
