// The lines of a tender's text in one spelling: the tender's line, its reserve's, and a bid's line with its windows joined where
// they overlap or touch, in rising order. `specs/Respelt.antt` says which windows a bid's line has.
#![tactic(auto)]

ghost use Rattle.std.specs.Prelude.{◌≡◌, true, ◌+◌, ◌*◌, ◌/◌, ◌≤◌, length, drop};
ghost use Rattle.tender.specs.Limits.{lawful, every};
ghost use Rattle.tender.specs.Tables.{windows_of, window_width};
ghost use Rattle.spelling.specs.Text.{window_text, windows_text, bid_text, tender_text, reserve_text, head_text};
ghost use Rattle.spelling_put.specs.Puts.{Puts};
ghost use Rattle.runs.specs.Runs.{joined};
ghost use Rattle.runs.specs.MinuteRows.{row_words, Empty, Full};
ghost use Rattle.writer_line.specs.Respelt.{respelt};

use spelling_put::Page;
use tender::Tender;

// " (START END)"
fn put_window(page: &mut Page<'_>, start: u64, end: u64)
    requires { page.old.at + 44 ≤ length page.old.buf.now }
    ensures { Puts page.old (window_text (record { start = start; end = end })) page.new }
{
    page.put_all(b" (");
    page.put_decimal(start);
    page.put_number(end);
    page.put(b')');
}

// The windows from `first` on, `count` of them, joined. Lent beside the page: a row for their minutes, one without a cell and
// one with every cell.
fn put_windows(
    page: &mut Page<'_>,
    windows: &[u64],
    first: usize,
    count: usize,
    row: &mut [u64],
    blank: &[u64],
    full: &[u64],
)
    requires { (first + count ≤ length windows.now / window_width)
        × ((every lawful (windows_of count (drop (window_width * first) windows.now)) ≡ true)
        × ((page.old.at + length (windows_text (joined (windows_of count (drop (window_width * first) windows.now)))) + 44
        ≤ length page.old.buf.now)
        × ((length row.old ≡ row_words) × (Empty blank.now × Full full.now)))) }
    ensures { Puts page.old (windows_text (joined (windows_of count (drop (window_width * first) windows.now)))) page.new
        × (length row.new ≡ row_words) }
{
    runs::minutes(windows, first, count, row);
    let mut from = 0;
    // A while: it goes on by runs, not by one.
    while from < 10080 {
        let run = runs::next(row, blank, full, from);
        if 10080 <= run.start {
            return;
        }
        put_window(page, run.start as u64, run.end as u64);
        from = run.end;
    }
}

// "(bid BIDDER PRICE (START END) ..)" and byte 10.
pub fn put_bid(
    page: &mut Page<'_>,
    windows: &[u64],
    bidder: u64,
    price: u64,
    first: usize,
    count: usize,
    row: &mut [u64],
    blank: &[u64],
    full: &[u64],
)
    requires { (first + count ≤ length windows.now / window_width)
        × ((every lawful (windows_of count (drop (window_width * first) windows.now)) ≡ true)
        × ((count ≤ 32) × ((page.old.at + 576 ≤ length page.old.buf.now)
        × ((length row.old ≡ row_words) × (Empty blank.now × Full full.now))))) }
    ensures { Puts page.old (bid_text (respelt
        (record { bidder = bidder; price = price; windows = windows_of count (drop (window_width * first) windows.now) })))
        page.new × (length row.new ≡ row_words) }
{
    page.put_all(b"(bid ");
    page.put_decimal(bidder);
    page.put_number(price);
    put_windows(page, windows, first, count, row, blank, full);
    page.put_all(b")\n");
}

// "(tender KIND START END)" and byte 10.
fn put_tender(page: &mut Page<'_>, tender: Tender)
    requires { page.old.at + 58 ≤ length page.old.buf.now }
    ensures { Puts page.old (tender_text tender) page.new }
{
    page.put_all(b"(tender ");
    page.put_kind(tender.kind);
    page.put_numbers(tender.window.start, tender.window.end);
}

// "(reserve PRICE)" and byte 10, where there is a reserve.
fn put_reserve(page: &mut Page<'_>, reserve: Option<u64>)
    requires { page.old.at + 31 ≤ length page.old.buf.now }
    ensures { Puts page.old (reserve_text reserve) page.new }
{
    match reserve {
        None => {}
        Some(price) => page.put_one(&tender::RESERVE, price),
    }
}

// The lines before the bids.
pub fn put_head(page: &mut Page<'_>, tender: Tender)
    requires { page.old.at + 89 ≤ length page.old.buf.now }
    ensures { Puts page.old (head_text tender) page.new }
{
    put_tender(page, tender);
    put_reserve(page, tender.reserve);
}
