// What the test programs share: standard output, random numbers, and counts of what was tried.
#![tactic(auto)]

mod output;

ghost use Rattle.std.specs.Prelude.{◌≡◌};
ghost use Rattle.test_tools.specs.Draws.{next_state, counted};

pub use output::Output;

// The next state of a generator (xorshift).
pub fn next(state: u64) -> u64
    ensures { result ≡ next_state state }
{
    let a = state ^ (state << 13);
    let b = a ^ (a >> 7);
    b ^ (b << 17)
}

// One more where it is so. Counts wrap; they are small.
pub fn count(n: &mut u64, so: bool)
    ensures { n.new ≡ counted so n.old }
{
    *n = n.wrapping_add(u64::from(so));
}
