// Totals of the flags and cents that an award leaves for its entries, and the owners' flags and cents put into lent lists. `award_rule`
// has what an award answers (`Award`) and what is promised of plain lists (`Plain`).
#![tactic(auto)]

// A flag for each entry, 1 where it won and 0 where it lost: `award::settle` fills lists of them, and may not change what it fills.

ghost use Rattle.std.specs.Prelude.{◌≡◌, ℕ, ◌≤◌, ◌<◌, length, get_or, eqb};
ghost use Rattle.tender.specs.Limits.{max_entries};
ghost use Rattle.cover.specs.Sets.{when};
ghost use Rattle.cover.specs.Settled.{most_cents, FilledTo};
ghost use Rattle.award_rule.specs.Sums.{cost_in, paid_in, house_in, totals_in};
ghost use Rattle.award_rule.specs.Plain.{told_in, won_after, cents_after};

use tender::{Refusal, Totals};

// The price where the flag is 1.
fn only(flag: u64, price: u64) -> u64
    ensures { (result ≡ when (eqb flag 1) price) × (result ≤ price) }
{
    if flag == 1 { price } else { 0 }
}

// What the entries whose flag is 1 ask in all.
fn cost(prices: &[u64], won: &[u64]) -> u64
    requires { (length prices.now ≤ max_entries) × ((length prices.now ≤ length won.now)
        × ((i : ℕ) → i < length prices.now → get_or prices.now i 0 ≤ most_cents)) }
    ensures { result ≡ cost_in prices.now won.now }
{
    let mut s: u64 = 0;
    for i in 0..prices.len() {
        s += only(won[i], prices[i]);
    }
    s
}

// What the first `owners` entries are paid in all.
fn paid(cents: &[u64], owners: usize) -> u64
    requires { (owners ≤ max_entries) × ((owners ≤ length cents.now)
        × ((i : ℕ) → i < owners → get_or cents.now i 0 ≤ most_cents)) }
    ensures { result ≡ paid_in cents.now owners }
{
    let mut s: u64 = 0;
    for i in 0..owners {
        s += cents[i];
    }
    s
}

// Whether an entry stands after the owners' and won: the house.
#[tactic(auto, unfolding(award_rule::specs::Sums::house_in))]
fn house(prices: &[u64], won: &[u64], owners: usize) -> bool
    requires { length prices.now ≤ length won.now }
    ensures { result ≡ house_in prices.now won.now owners }
{
    owners < prices.len() && won[owners] == 1
}

// The winners' cost over all entries, the sum paid to the first `owners` of them, and whether the house won.
pub fn totals(prices: &[u64], won: &[u64], cents: &[u64], owners: usize) -> Totals
    requires prices_len_bound { (length prices.now ≤ max_entries) × ((length prices.now ≤ length won.now)
        × ((length prices.now ≤ length cents.now) × (owners ≤ length prices.now))) }
    requires by_index { (i : ℕ) → i < length prices.now
        → (get_or prices.now i 0 ≤ most_cents) × (get_or cents.now i 0 ≤ most_cents) }
    ensures { result ≡ totals_in prices.now won.now cents.now owners }
{
    let cost = cost(prices, won);
    let paid = paid(cents, owners);
    let house = house(prices, won, owners);
    Totals { cost, paid, house }
}

// The flags and cents of the first n entries, in the first places of the two lent lists.
fn put_owners(n: usize, flags: &[u64], pays: &[u64], won: &mut [u64], cents: &mut [u64])
    requires { (n ≤ length flags.now) × ((n ≤ length pays.now)
        × ((n ≤ length won.old) × (n ≤ length cents.old))) }
    ensures { FilledTo (λ i. when (eqb (get_or flags.now i 0) 1) 1) won.old won.new n
        × FilledTo (λ i. get_or pays.now i 0) cents.old cents.new n }
{
    for i in 0..n {
        won[i] = u64::from(flags[i] == 1);
    }
    cents[..n].copy_from_slice(&pays[..n]);
}

// What the answer tells of the first n entries, in the two lent lists; they stay where it declines.
pub fn report(
    answer: Result<Totals, Refusal>,
    n: usize,
    flags: &[u64],
    pays: &[u64],
    won: &mut [u64],
    cents: &mut [u64],
)
    requires { (n ≤ length flags.now) × ((n ≤ length pays.now)
        × ((n ≤ length won.old) × (n ≤ length cents.old))) }
    ensures { (won.new ≡ won_after won.old (told_in n flags.now pays.now answer))
        × (cents.new ≡ cents_after cents.old (told_in n flags.now pays.now answer)) }
{
    if let Ok(_) = answer {
        put_owners(n, flags, pays, won, cents);
    }
}
