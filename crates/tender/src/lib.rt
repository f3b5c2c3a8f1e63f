// The data that every crate here speaks of: kinds, spans, windows, tenders, limits, keywords, award rows, totals and refusals.
// No algorithm stands here. `specs/` has what the crates above cite of it: the limits and the rule of a
// window, the layout of the two tables, the keywords, and each refusal's number and place.
#![tactic(auto)]

ghost use Rattle.std.specs.Prelude.{◌≡◌};
ghost use Rattle.tender.specs.Plain.{plain_tender};
ghost use Rattle.tender.specs.Refusals.{number_of, place_of};

// A single tender takes bids of one window each, a multi tender bids of several.
#[derive(Clone, Copy, Debug, PartialEq, Eq)]
pub enum Kind {
    Single,
    Multi,
}

// What a tender spans: the minutes from `start` to `end` - 1.
#[derive(Clone, Copy, Debug, PartialEq, Eq)]
pub struct Span {
    pub start: u64,
    pub end: u64,
}

// A window of a bid: the minutes from `start` to `end` - 1.
#[derive(Clone, Copy, Debug, PartialEq, Eq)]
pub struct Window {
    pub start: u64,
    pub end: u64,
}

// What is bought: every minute of the tender's own window. The reserve is what the house asks for covering the whole tender itself, where
// it offers to.
#[derive(Clone, Copy, Debug, PartialEq, Eq)]
pub struct Tender {
    pub kind: Kind,
    pub window: Span,
    pub reserve: Option<u64>,
}

// The row that an award fills for a bid: won or lost, and the cents paid.
#[derive(Clone, Copy, Debug, PartialEq, Eq)]
pub struct AwardRow {
    pub won: bool,
    pub cents: u64,
}

// The winners' cost and the sum paid to owners, in cents, and whether the house is among the winners.
#[derive(Clone, Copy, Debug, PartialEq, Eq)]
pub struct Totals {
    pub cost: u64,
    pub paid: u64,
    pub house: bool,
}

// Why a call declines. `line` counts the text's lines from 1; `row` counts the rows of the bid table from 1 and
// is 0 for the tender; `minute` is a minute of the tender.
#[derive(Clone, Copy, Debug, PartialEq, Eq)]
pub enum Refusal {
    TextTooLong,
    BadForm { line: u64 },
    OutsideLimits { line: u64 },
    TooMany { line: u64 },
    EmptyWindow { line: u64 },
    BidderRepeated { line: u64 },
    SeveralWindows { line: u64 },
    TableTooShort,
    BadTables { row: u64 },
    RowsTooFew,
    MinuteUncovered { minute: u64 },
    OneBidder { minute: u64 },
    NoRoom,
    LateWindow { line: u64 },
    ReserveMisplaced { line: u64 },
    NoSuchBidder,
}

// The last end of a window: a week of minutes.
pub const WEEK: u64 = 10080;

pub const MAX_PRICE: u64 = 100000000;

pub const MAX_BIDDER: u64 = 999999;

pub const MAX_BIDS: usize = 1000;
// How many entries an award can weigh: the bids and one more.
pub const MAX_ENTRIES: usize = 1001;
// How many windows a bid of a multi tender may have.
pub const MAX_WINDOWS: usize = 32;

pub const MAX_TEXT: usize = 65536;

// The numbers of a row of the bid table: bidder, price, place of its first window, number of windows.
pub const BID_WIDTH: usize = 4;
// The numbers of a row of the window table: start, end.
pub const WINDOW_WIDTH: usize = 2;

// The numbers of the tables that the longest readable text needs: 1,000 bids, and fewer than 11,000 windows, since each has six bytes.
pub const BID_TABLE: usize = 4000;

pub const WINDOW_TABLE: usize = 22000;

// The keywords of the bid text and of the list.
pub const TENDER: [u8; 6] = *b"tender";

pub const RESERVE: [u8; 7] = *b"reserve";

pub const BID: [u8; 3] = *b"bid";

pub const SINGLE: [u8; 6] = *b"single";

pub const MULTI: [u8; 5] = *b"multi";

// A tender of this kind and window, without a reserve.
pub fn plain(kind: Kind, start: u64, end: u64) -> Tender
    ensures { result ≡ plain_tender kind start end }
{
    Tender {
        kind,
        window: Span { start, end },
        reserve: None,
    }
}

// The refusal's number. It and the place are two calls that pages name, and no `From`, which would not say which of the two it gives.
pub fn number(r: Refusal) -> u64
    ensures { result ≡ number_of r }
{
    match r {
        Refusal::TextTooLong => 1,
        Refusal::BadForm { line: _ } => 2,
        Refusal::OutsideLimits { line: _ } => 3,
        Refusal::TooMany { line: _ } => 4,
        Refusal::EmptyWindow { line: _ } => 5,
        Refusal::BidderRepeated { line: _ } => 6,
        Refusal::SeveralWindows { line: _ } => 7,
        Refusal::TableTooShort => 8,
        Refusal::BadTables { row: _ } => 9,
        Refusal::RowsTooFew => 10,
        Refusal::MinuteUncovered { minute: _ } => 11,
        Refusal::OneBidder { minute: _ } => 12,
        Refusal::NoRoom => 14,
        Refusal::LateWindow { line: _ } => 15,
        Refusal::ReserveMisplaced { line: _ } => 16,
        Refusal::NoSuchBidder => 17,
    }
}

// The refusal's place.
pub fn place(r: Refusal) -> u64
    ensures { result ≡ place_of r }
{
    match r {
        Refusal::TextTooLong => 0,
        Refusal::BadForm { line } => line,
        Refusal::OutsideLimits { line } => line,
        Refusal::TooMany { line } => line,
        Refusal::EmptyWindow { line } => line,
        Refusal::BidderRepeated { line } => line,
        Refusal::SeveralWindows { line } => line,
        Refusal::TableTooShort => 0,
        Refusal::BadTables { row } => row,
        Refusal::RowsTooFew => 0,
        Refusal::MinuteUncovered { minute } => minute,
        Refusal::OneBidder { minute } => minute,
        Refusal::NoRoom => 0,
        Refusal::LateWindow { line } => line,
        Refusal::ReserveMisplaced { line } => line,
        Refusal::NoSuchBidder => 0,
    }
}
