// A set of bidder numbers: the cells of words that are kept with their lowest bit turned, so that a word of 1 has none. Ones are stored in
// place by the compiler, where zeros are written by a call that goes byte by byte.
#![tactic(auto)]

ghost use Rattle.std.specs.Prelude.{◌≡◌, ◌+◌, ◌*◌, ◌<◌, length, eqb};
ghost use Rattle.cells.specs.Cells.{cell, RangeAdded};
ghost use Rattle.numbers.specs.Members.{members};

// The words of a set of a million numbers.
pub const WORDS: usize = 15625;

// Whether x is in the set.
pub fn holds(set: &[u64], x: usize) -> bool
    requires { x < 64 * length set.now }
    ensures { result ≡ eqb (cell (members set.now) x) 1 }
{
    let w = set[x / 64] ^ 1;
    (w >> (x % 64)) & 1 == 1
}

// Puts x into the set.
pub fn add(set: &mut [u64], x: usize)
    requires { x < 64 * length set.old }
    ensures { RangeAdded x (x + 1) (members set.old) (members set.new) }
{
    let q = x / 64;
    let w = set[q] ^ 1;
    set[q] = (w | 1 << (x % 64)) ^ 1;
}
