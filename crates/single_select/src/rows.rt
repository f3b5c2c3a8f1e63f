// Sets of bids in rows of sixteen 64-bit words: a row with one bid more, a row's bids as flags.
ghost use Rattle.std.specs.Prelude.{◌≡◌, false, ◌+◌, ◌*◌, ◌-◌, ◌/◌, ◌%◌, ◌^◌, ◌<◌, ◌≤◌, length};
ghost use Rattle.cover.specs.Sets.{bit, when};
ghost use Rattle.cover.specs.Settled.{FilledTo};
ghost use Rattle.single_lead.specs.Rows.{set_in};
ghost use Rattle.single_select.specs.Extend.{Copied, Extended};

fn mask(i: usize) -> u64
    ensures { result ≡ 2 ^ (i % 64) }
{
    1 << (i % 64)
}

fn copy_row(sets: &mut [u64], from: usize, to: usize)
    requires { (from * 16 + 16 ≤ length sets.old) × (to * 16 + 16 ≤ length sets.old) × (from ≡ to → ⊥) }
    ensures { Copied sets.old sets.new from to 16 }
{
    sets.copy_within(from * 16..from * 16 + 16, to * 16);
}

// Row `i`: row `from` with bid `i`.
pub(crate) fn extend(sets: &mut [u64], from: usize, i: usize)
    requires from_in_bounds { (from * 16 + 16 ≤ length sets.old) × (i * 16 + 16 ≤ length sets.old) × (from ≡ i → ⊥)
        × (i < 1024) }
    requires i_value { bit (set_in 16 sets.old from) i ≡ false }
    ensures { Extended sets.old sets.new from i (2 ^ i) }
{
    copy_row(sets, from, i);
    let at = i * 16 + i / 64;
    sets[at] += mask(i);
}

// Row `r`: the set of no bids.
pub(crate) fn clear(sets: &mut [u64], r: usize)
    requires { r * 16 + 16 ≤ length sets.old }
    ensures { set_in 16 sets.new r ≡ 0 }
{
    sets[r * 16..r * 16 + 16].fill(0);
}

// A flag for each bid of the set in row `r`, 1 or 0: the list is the one that the caller of an award lends, and theorems speak of it.
pub(crate) fn mark(sets: &[u64], r: usize, n: usize, won: &mut [u64])
    requires { (r * 16 + 16 ≤ length sets.now) × (n ≤ 1024) × (n ≤ length won.old) }
    ensures { FilledTo (λ i. when (bit (set_in 16 sets.now r) i) 1) won.old won.new n }
{
    for i in 0..n {
        let word = sets[r * 16 + i / 64];
        won[i] = (word >> (i % 64)) % 2;
    }
}
