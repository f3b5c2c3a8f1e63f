// One line of a bid text, read from a place on into a value before it is judged. The text's last byte is 10.
ghost use Rattle.std.specs.Prelude.{◌≡◌, List, ℕ, ◌+◌, ◌*◌, ◌<◌, ◌≤◌, take, drop, length, None};
ghost use Rattle.tender.specs.Tables.{window_width};
ghost use Rattle.reader_parts.specs.Scan.{Ended};
ghost use Rattle.reader_forms.specs.Line.{line_of};
ghost use Rattle.reader_forms.specs.LineFront.{first_line, windows_front, bid_front, reserve_front, kind_front, tender_front};
ghost use Rattle.reader_forms.specs.Tally.{put_window, noted};
ghost use Rattle.reader_parts.specs.Answer.{read_place};
ghost use Rattle.reader_line.specs.Answer.{tallied_front, told_tally, noted_front, told_front, told_line};
ghost use Rattle.reader_line.specs.Answer.{EndsAfter, head_line, Room};

use reader_parts::{Flaw, Read};
use reader_window::{read_span, read_window, worse};
use reader_word::{read_number, read_price, stands};
use tender::{Kind, Span, Window};

// The window in row m, which the table has.
fn put_window(windows: &mut [u64], m: usize, w: Window)
    requires { window_width * m + 1 < length windows.old }
    ensures { windows.new ≡ put_window windows.old m w }
{
    let at = tender::WINDOW_WIDTH * m;
    windows[at] = w.start;
    windows[at + 1] = w.end;
}

// How many windows, and what is wrong with them.
#[derive(Clone, Copy)]
pub(crate) struct Tally {
    count: usize,
    flaw: Option<Flaw>,
}

// The windows from `at` on, up to the line's end. They are put into the rows from m on; the rows before m stay, whatever the line is.
fn read_windows(s: &[u8], at: usize, windows: &mut [u64], m: usize) -> Option<Read<Tally>>
    requires { Room s.now at m windows.old × ((at < length s.now) × Ended s.now) }
    ensures answer { told_tally s.now result windows.new
        ≡ tallied_front m 0 None windows.old (windows_front (drop at s.now)) }
    ensures place { read_place result ≤ length s.now }
    ensures rows { take (window_width * m) windows.new ≡ take (window_width * m) windows.old }
{
    let mut count: usize = 0;
    let mut flaw = None;
    let mut p = at;
    // a loop: the place goes on by a window, not by one
    loop {
        let w = read_window(s, p)?;
        put_window(windows, m + count, w.value);
        flaw = worse(flaw, w.value);
        count += 1;
        p = w.next;
        if s[p] == b')' {
            if s[p + 1] != b'\n' {
                return None;
            }
            return Some(Read {
                value: Tally { count, flaw },
                next: p + 2,
            });
        }
    }
}

// A line as it stands, with what is judged of a bid.
#[derive(Clone, Copy)]
pub enum Line {
    Tender(Kind, Span),
    Bid {
        bidder: u64,
        price: u64,
        count: usize,
        flaw: Option<Flaw>,
    },
    Reserve(u64),
}

// A bid's line from the bidder on: bidder, price and the windows, which are put into the rows from m on.
fn read_bid(s: &[u8], at: usize, windows: &mut [u64], m: usize) -> Option<Read<Line>>
    requires { Room s.now at m windows.old × ((at < length s.now) × Ended s.now) }
    ensures answer { told_front s.now result windows.new
        ≡ noted_front m windows.old (bid_front (drop at s.now)) }
    ensures place { read_place result ≤ length s.now }
    ensures rows { take (window_width * m) windows.new ≡ take (window_width * m) windows.old }
{
    let bidder = read_number(s, at)?;
    if s[bidder.next] != b' ' {
        return None;
    }
    let price = read_price(s, bidder.next + 1)?;
    let tally = read_windows(s, price.next, windows, m)?;
    Some(Read {
        value: Line::Bid {
            bidder: bidder.value,
            price: price.value,
            count: tally.value.count,
            flaw: tally.value.flaw,
        },
        next: tally.next,
    })
}

// The reserve's line from the price on: a price, a closing bracket and the line's end.
fn read_reserve(s: &[u8], at: usize) -> Option<Read<Line>>
    requires { (at < length s.now) × Ended s.now }
    ensures answer { (m : ℕ) (table : List ℕ) → told_front s.now result table
        ≡ noted_front m table (reserve_front (drop at s.now)) }
    ensures place { read_place result ≤ length s.now }
{
    let price = read_price(s, at)?;
    if s[price.next] != b')' {
        return None;
    }
    if s[price.next + 1] != b'\n' {
        return None;
    }
    Some(Read {
        value: Line::Reserve(price.value),
        next: price.next + 2,
    })
}

// The tender's line from the start on: start, end and the line's end.
fn read_kind(s: &[u8], at: usize, kind: Kind) -> Option<Read<Line>>
    requires { (at < length s.now) × Ended s.now }
    ensures answer { (m : ℕ) (table : List ℕ) → told_front s.now result table
        ≡ noted_front m table (kind_front kind (drop at s.now)) }
    ensures place { read_place result ≤ length s.now }
{
    let span = read_span(s, at)?;
    if s[span.next] != b'\n' {
        return None;
    }
    Some(Read {
        value: Line::Tender(kind, span.value),
        next: span.next + 1,
    })
}

// The tender's line from the kind on. "single " has 7 bytes, "multi " 6.
fn read_tender(s: &[u8], at: usize) -> Option<Read<Line>>
    requires { (at < length s.now) × Ended s.now }
    ensures answer { (m : ℕ) (table : List ℕ) → told_front s.now result table
        ≡ noted_front m table (tender_front (drop at s.now)) }
    ensures place { read_place result ≤ length s.now }
{
    if stands(s, at, &tender::SINGLE) {
        return read_kind(s, at + 7, Kind::Single);
    }
    if stands(s, at, &tender::MULTI) {
        return read_kind(s, at + 6, Kind::Multi);
    }
    None
}

// The line from `at` on, where it is one of a head: the tender's, after "(tender ", or the reserve's, after "(reserve ". Any other is
// none.
pub fn read_head_line(s: &[u8], at: usize) -> Option<Read<Line>>
    requires { (at < length s.now) × Ended s.now }
    ensures answer { (m : ℕ) (table : List ℕ) → told_line result table
        ≡ noted m table (head_line (line_of (first_line (drop at s.now)))) }
    ensures place { EndsAfter s.now at result }
{
    if s[at] != b'(' {
        return None;
    }
    if stands(s, at + 1, &tender::TENDER) {
        return read_tender(s, at + 8);
    }
    if stands(s, at + 1, &tender::RESERVE) {
        return read_reserve(s, at + 9);
    }
    None
}

// The line from `at` on. A bid's windows, after "(bid ", are put into the rows from m on; the rows before m stay, whatever the line is.
pub fn read_line(s: &[u8], at: usize, windows: &mut [u64], m: usize) -> Option<Read<Line>>
    requires { Room s.now at m windows.old × ((at < length s.now) × Ended s.now) }
    ensures answer { told_line result windows.new
        ≡ noted m windows.old (line_of (first_line (drop at s.now))) }
    ensures place { EndsAfter s.now at result }
    ensures rows { take (window_width * m) windows.new ≡ take (window_width * m) windows.old }
{
    if s[at] != b'(' {
        return None;
    }
    if stands(s, at + 1, &tender::BID) {
        return read_bid(s, at + 5, windows, m);
    }
    read_head_line(s, at)
}
