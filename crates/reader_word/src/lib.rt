// The keywords and numbers of a bid text whose last byte is 10, each read from a place on. No byte 10 is in a keyword or a number, so
// that no loop here runs past the text. Text and place stay two parameters: a struct with a ghost field that the last byte is 10 makes
// each `requires` shorter, but each `ensures` longer by as much, as it then speaks of `s.entry.bytes.now`.
#![tactic(auto)]

ghost use Rattle.std.specs.Prelude.{◌≡◌, true, [], ◌∷◌, ◌++◌, ◌+◌, ◌<◌, drop, get_or, length};
ghost use Rattle.reader_parts.specs.Scan.{Ended, lettered, starts_with};
ghost use Rattle.reader_parts.specs.Front.{digit_front, digits_front, cents_front, number_front, price_front};
ghost use Rattle.reader_parts.specs.Answer.{ReadIs};

use reader_parts::Read;

// Whether the keyword, which is of letters, and a space stand at `at`.
pub fn stands(s: &[u8], at: usize, word: &[u8]) -> bool
    requires { (at < length s.now) × Ended s.now × (lettered word.now ≡ true) }
    ensures answer { result ≡ starts_with (word.now ++ 32 ∷ []) (drop at s.now) }
    ensures place { result ≡ true → at + length word.now + 1 < length s.now }
{
    for i in 0..word.len() {
        let b = s[at + i];
        match b {
            b'a'..=b'z' => {
                if b != word[i] {
                    return false;
                }
            }
            _ => {
                return false;
            }
        }
    }
    s[at + word.len()] == b' '
}

// The digits from `at` on, after those of value `first`, nine in all: nine without a leading zero make 100,000,000 at least.
fn digits(s: &[u8], at: usize, first: u64) -> Option<Read<u64>>
    requires { (at < length s.now) × Ended s.now }
    ensures { ReadIs (digits_front first (drop at s.now)) s.now at result }
{
    let mut value = first;
    let mut next = at;
    // a while: the value so far ends it, and the place where it ends is answered
    while value < 100000000 {
        let b = s[next];
        match b {
            b'0'..=b'9' => {
                value = value * 10 + u64::from(b - b'0');
                next += 1;
            }
            _ => {
                return Some(Read { value, next });
            }
        }
    }
    Some(Read { value, next })
}

// The number at `at`: 1 to 9 digits and no leading zero, except 0 itself. The byte after it is the caller's to judge.
pub fn read_number(s: &[u8], at: usize) -> Option<Read<u64>>
    requires { (at < length s.now) × Ended s.now }
    ensures { ReadIs (number_front (drop at s.now)) s.now at result }
{
    let b = s[at];
    let next = at + 1;
    match b {
        b'1'..=b'9' => digits(s, next, u64::from(b - b'0')),
        b'0' => Some(Read { value: 0, next }),
        _ => None,
    }
}

// One more digit at `at`, after those of value `v`.
fn read_digit(s: &[u8], at: usize, v: u64) -> Option<Read<u64>>
    requires { (at < length s.now) × Ended s.now × (v < 100000000) }
    ensures { ReadIs (digit_front v (drop at s.now)) s.now at result }
{
    let b = s[at];
    match b {
        b'0'..=b'9' => Some(Read {
            value: v * 10 + u64::from(b - b'0'),
            next: at + 1,
        }),
        _ => None,
    }
}

// The point at `at` and two digits, after the number `whole`, which has seven digits at the most.
fn read_cents(s: &[u8], at: usize, whole: u64) -> Option<Read<u64>>
    requires { (at < length s.now) × Ended s.now × (get_or s.now at 0 ≡ 46) }
    ensures { ReadIs (cents_front whole (drop at s.now)) s.now at result }
{
    if 10000000 <= whole {
        return None;
    }
    let tenths = read_digit(s, at + 1, whole)?;
    read_digit(s, tenths.next, tenths.value)
}

// The price at `at`, in cents: a number of them, or a number, a point and two digits.
pub fn read_price(s: &[u8], at: usize) -> Option<Read<u64>>
    requires { (at < length s.now) × Ended s.now }
    ensures { ReadIs (price_front (drop at s.now)) s.now at result }
{
    let whole = read_number(s, at)?;
    if s[whole.next] == b'.' {
        read_cents(s, whole.next, whole.value)
    } else {
        Some(whole)
    }
}
