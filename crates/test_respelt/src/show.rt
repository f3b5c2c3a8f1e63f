// Bid texts and tables written in one spelling, and what is told of it.
use crate::tables::LongBids;
use crate::{lots, tables};
use std::io::Write;
use std::{fmt, io};
use tender::{Kind, Refusal, Tender};

// The bytes of the buffer that were written; none where the writing was refused.
pub(crate) fn written(answer: Result<usize, Refusal>, buf: &[u8]) -> &[u8] {
    &buf[..answer.unwrap_or(0).min(buf.len())]
}

// An answer as it is told: written with the length, or refused with number and place.
#[derive(Clone, Copy)]
struct Told(Result<usize, Refusal>);

impl fmt::Display for Told {
    fn fmt<W: fmt::Write>(&self, f: &mut fmt::Formatter<W>) -> fmt::Result {
        match self.0 {
            Ok(n) => write!(f, "written {n}"),
            Err(r) => write!(f, "refused {} {}", tender::number(r), tender::place(r)),
        }
    }
}

// Writes the text as it is given and in one spelling, and answers the buffer, with zeros past the text.
pub(crate) fn text(rt: &impl Print, given: &str) -> io::Result<[u8; 400]> {
    let mut buf = [0u8; 400];
    let answer = lots::read(given.as_bytes()).written(&mut buf);
    println!(rt; "given\n{given}{}", Told(answer))?;
    io::writer(rt).write_all(written(answer, &buf))?;
    Ok(buf)
}

// Writes two texts so, and whether they have the same bytes in one spelling.
pub(crate) fn pair(rt: &impl Print, a: &str, b: &str) -> io::Result<()> {
    let one = text(rt, a)?;
    let two = text(rt, b)?;
    let word = if one == two { "the" } else { "not the" };
    println!(rt; "{word} same bytes")
}

// Writes the label, the answer, and whether the bytes past those that were written are 7, as all bytes of the buffer were before.
fn tell_bytes(
    rt: &impl Print,
    label: &str,
    answer: Result<usize, Refusal>,
    buf: &[u8],
) -> io::Result<()> {
    let length = written(answer, buf).len();
    let word = if buf.iter().skip(length).all(|b| *b == 7) {
        "the other bytes stand"
    } else {
        "other bytes changed"
    };
    println!(rt; "{label}: {}, {word}", Told(answer))
}

// Writes the text in one spelling into this buffer, whose bytes are all 7, and tells it.
pub(crate) fn lend(rt: &impl Print, label: &str, given: &str, buf: &mut [u8]) -> io::Result<()> {
    let answer = lots::read(given.as_bytes()).written(buf);
    tell_bytes(rt, label, answer, buf)
}

// Writes a tender of 20 bytes with this reserve and so many bids of 471 bytes each, but the last with its price and so many
// windows, into a buffer whose bytes are 7.
pub(crate) fn long(
    rt: &impl Print,
    label: &str,
    reserve: Option<u64>,
    long: LongBids,
    buf: &mut [u8],
) -> io::Result<()> {
    let tender = lots::tender_of(Kind::Multi, 0, 10, reserve);
    let mut bids = [0u64; tender::BID_TABLE];
    let mut windows = [0u64; 64000];
    tables::fill_long_bids(&mut bids, long);
    tables::fill_far_windows(&mut windows);
    let answer = writer::write(tender, long.count, &bids, &windows, buf);
    tell_bytes(rt, label, answer, buf)
}

// Writes two bids, the second with this bidder and two windows, into a buffer of no byte, stating so many.
pub(crate) fn nowhere(
    rt: &impl Print,
    label: &str,
    tender: Tender,
    count: usize,
    bidder: u64,
) -> io::Result<()> {
    let bids = [3, 30, 0, 1, bidder, 7, 1, 2];
    let windows = [0, 5, 5, 9, 0, 5];
    let answer = writer::write(tender, count, &bids, &windows, &mut [7u8; 0]);
    println!(rt; "{label}: {}", Told(answer))
}
