// A window of a bid text: its two numbers, read from a place on, and what is wrong with it.
#![tactic(auto)]

ghost use Rattle.std.specs.Prelude.{◌≡◌, ◌+◌, ◌<◌, drop, length};
ghost use Rattle.reader_parts.specs.Scan.{Ended};
ghost use Rattle.reader_parts.specs.Front.{span_front, window_front};
ghost use Rattle.reader_parts.specs.Flaws.{flaw_in, worst};
ghost use Rattle.reader_parts.specs.Answer.{ReadIs};

use reader_parts::{Flaw, Read};
use reader_word::read_number;
use tender::{Span, Window};

// "S E)" from `at` on.
pub fn read_span(s: &[u8], at: usize) -> Option<Read<Span>>
    requires { (at < length s.now) × Ended s.now }
    ensures { ReadIs (span_front (drop at s.now)) s.now at result }
{
    let start = read_number(s, at)?;
    if s[start.next] != b' ' {
        return None;
    }
    let end = read_number(s, start.next + 1)?;
    if s[end.next] != b')' {
        return None;
    }
    let value = Span {
        start: start.value,
        end: end.value,
    };
    Some(Read {
        value,
        next: end.next + 1,
    })
}

// " (S E)" from `at` on.
pub fn read_window(s: &[u8], at: usize) -> Option<Read<Window>>
    requires { (at < length s.now) × Ended s.now }
    ensures { ReadIs (window_front (drop at s.now)) s.now (at + 2) result }
{
    if s[at] != b' ' {
        return None;
    }
    if s[at + 1] != b'(' {
        return None;
    }
    let Read {
        value: Span { start, end },
        next,
    } = read_span(s, at + 2)?;
    Some(Read {
        value: Window { start, end },
        next,
    })
}

// What is wrong with the window from a to z: two numbers, since a tender's span is judged by it too.
pub fn flaw_in(a: u64, z: u64) -> Option<Flaw>
    ensures { result ≡ flaw_in (record { start = a; end = z }) }
{
    if z <= a {
        Some(Flaw::Empty)
    } else if tender::WEEK < z {
        Some(Flaw::Late)
    } else {
        None
    }
}

// What is wrong with windows, with one more.
pub fn worse(flaw: Option<Flaw>, w: Window) -> Option<Flaw>
    ensures { result ≡ worst flaw (flaw_in w) }
{
    match flaw_in(w.start, w.end) {
        None => flaw,
        Some(Flaw::Late) => flaw.or(Some(Flaw::Late)),
        Some(Flaw::Empty) => Some(Flaw::Empty),
    }
}
