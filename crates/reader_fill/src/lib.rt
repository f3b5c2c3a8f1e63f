// A bid text read into two tables that have room for any: the head, the bids, and what stands after the last line. `reader_text` Read says
// what a text gives; a refused text may leave anything in the tables.
#![tactic(auto)]

ghost use Rattle.std.specs.Prelude.{◌≡◌, ◌++◌, ◌≤◌, length, drop};
ghost use Rattle.tender.specs.Tables.{bid_table, window_table};
ghost use Rattle.reader_parts.specs.Words.{cut};
ghost use Rattle.reader_parts.specs.Scan.{Ended};
ghost use Rattle.reader_forms.specs.Line.{lines_of};
ghost use Rattle.reader_text.specs.Read.{reserve_in, head_of, read_lines, read_text};
ghost use Rattle.reader_fill.specs.Answer.{fill_answer, Holds};
ghost use Rattle.reader_fill.specs.Opened.{Opened, NextIs};
ghost use Rattle.reader_fill.specs.Rest.{LinesEnd, rest_line};

use reader_bids::read_bids;
use reader_line::line::{Line, read_head_line};
use reader_parts::{Flaw, Read};
use reader_window::flaw_in;
use tender::{Kind, Refusal, Span, Tender};

// What the lines before the bids give: the tender, where the bids begin, and the number of their first line.
#[derive(Clone, Copy)]
pub(crate) struct Head {
    tender: Tender,
    at: usize,
    line: u64,
}

// The price of the reserve's line, where that begins at `at`, and where the next line begins.
fn next_reserve(text: &[u8], at: usize) -> Option<Read<u64>>
    requires { (at ≤ length text.now) × Ended text.now }
    ensures { NextIs text.now at result }
{
    if text.len() <= at {
        return None;
    }
    let read = read_head_line(text, at)?;
    match read.value {
        Line::Reserve(value) => Some(Read {
            value,
            next: read.next,
        }),
        Line::Tender(_, _) => None,
        Line::Bid { .. } => None,
    }
}

// The head from its line of this number on, which begins at `at`: the reserve's line, where it stands there. Any other line is
// left to the bids, which read it again.
fn reserve_in(text: &[u8], at: usize, line: u64, kind: Kind, window: Span) -> Result<Head, Refusal>
    requires { (at ≤ length text.now) × (line ≤ 65536) × Ended text.now }
    ensures { Opened text.now (reserve_in (record { kind = kind; window = window }) line
        (lines_of (cut 10 (drop at text.now)))) result }
{
    let Some(price) = next_reserve(text, at) else {
        let tender = Tender {
            kind,
            window,
            reserve: None,
        };
        return Ok(Head { tender, at, line });
    };
    if tender::MAX_PRICE < price.value {
        return Err(Refusal::OutsideLimits { line });
    }
    let tender = Tender {
        kind,
        window,
        reserve: Some(price.value),
    };
    Ok(Head {
        tender,
        at: price.next,
        line: line + 1,
    })
}

// The lines before the bids.
fn read_head(text: &[u8]) -> Result<Head, Refusal>
    requires { Ended text.now }
    ensures { Opened text.now (head_of (lines_of (cut 10 text.now))) result }
{
    let bad_form = Err(Refusal::BadForm { line: 1 });
    let Some(read) = read_head_line(text, 0) else {
        return bad_form;
    };
    match read.value {
        Line::Tender(kind, w) => match flaw_in(w.start, w.end) {
            Some(Flaw::Empty) => Err(Refusal::EmptyWindow { line: 1 }),
            Some(Flaw::Late) => Err(Refusal::LateWindow { line: 1 }),
            None => reserve_in(text, read.next, 2, kind, w),
        },
        Line::Bid { .. } => bad_form,
        Line::Reserve(_) => bad_form,
    }
}

// The place past the last byte 10, and 0 where there is none.
fn last_line(text: &[u8]) -> usize
    ensures { LinesEnd text.now result }
{
    match text.iter().rposition(|b| *b == b'\n') {
        Some(i) => i + 1,
        None => 0,
    }
}

// The tender and how many rows of each table were filled.
#[derive(Clone, Copy, Debug, PartialEq, Eq)]
pub struct Filled {
    pub tender: Tender,
    pub bids: usize,
    pub windows: usize,
}

// Reads lines that all end with byte 10 into the first rows of two tables that have room for any text. Where there is a rest, bytes that
// no byte 10 ends follow the lines: they are a line of no form.
fn read_lines(
    text: &[u8],
    rest: bool,
    rows: &mut [u64],
    windows: &mut [u64],
) -> Result<Filled, Refusal>
    requires { Ended text.now × (length text.now ≤ 65536) × (length rows.old ≡ bid_table)
        × (length windows.old ≡ window_table) }
    ensures answer { result ≡ fill_answer (read_lines (lines_of (cut 10 text.now) ++ rest_line rest)) }
    ensures tables { Holds (read_lines (lines_of (cut 10 text.now) ++ rest_line rest)) rows.new
        windows.new }
{
    let head = read_head(text)?;
    let mut used = [1u64; numbers::WORDS];
    let counts = read_bids(
        text,
        head.at,
        head.line,
        head.tender,
        &mut used,
        rows,
        windows,
    )?;
    let line = head.line + counts.bids as u64;
    if rest {
        return Err(Refusal::BadForm { line });
    }
    Ok(Filled {
        tender: head.tender,
        bids: counts.bids,
        windows: counts.windows,
    })
}

// Reads the text into the first rows of two tables that have room for any text. A refused text may leave anything in them.
pub fn fill(text: &[u8], rows: &mut [u64], windows: &mut [u64]) -> Result<Filled, Refusal>
    requires { (length rows.old ≡ bid_table) × (length windows.old ≡ window_table) }
    ensures answer { result ≡ fill_answer (read_text text.now) }
    ensures tables { Holds (read_text text.now) rows.new windows.new }
{
    if tender::MAX_TEXT < text.len() {
        return Err(Refusal::TextTooLong);
    }
    let end = last_line(text);
    if end == 0 {
        return Err(Refusal::BadForm { line: 1 });
    }
    read_lines(&text[..end], end < text.len(), rows, windows)
}
