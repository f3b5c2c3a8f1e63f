// Bids in order of price for each cell, on a tie in order of entry, by one number each: its key. A tree of the keys has the least of all
// at node 1; `put` changes the key of one bid, `play` makes all nodes from the leaves.
#![tactic(auto)]

ghost use Rattle.std.specs.Prelude.{◌≡◌, ◌+◌, ◌-◌, ◌*◌, ◌/◌, ◌<◌, ◌≤◌, min, length, set};
ghost use Rattle.multi_keys.specs.Keys.{key_of};
ghost use Rattle.multi_keys.specs.Tree.{leaves, Tree};

// OUT and LAST are numbers and no Option: a key is one word, which the tree compares and the theory of the rounds speaks of.

// Above every key: of a bid without an open cell, or out. Its bytes are not all alike, so that a fill with it is stored in place.
pub const OUT: u64 = 18446744073709551614;

// Above the key of every bid with an open cell, and below OUT.
pub const LAST: u64 = 18446744073709551613;

// The key of bid i, which asks this price for so many cells.
pub fn key_of(price: u64, cells: u64, i: usize) -> u64
    requires { (price ≤ 100000000) × (i < 1024) }
    ensures { result ≡ key_of price cells i }
{
    if cells == 0 {
        return OUT;
    }
    price * 134217728 / cells * 1024 + i as u64
}

// The other node below the same one: of 2 u and 2 u + 1.
fn beside(v: usize) -> usize
    requires { v < 2048 }
    ensures { result ≡ 4 * (v / 2) + 1 - v }
{
    v ^ 1
}

// Sets bid i's key, and plays the ten nodes above it.
pub fn put(tree: &mut [u64], i: usize, key: u64)
    requires { Tree tree.old × (i < 1024) }
    ensures { Tree tree.new × (leaves tree.new ≡ set (leaves tree.old) i key) }
{
    let mut v = 1024 + i;
    let mut x = key;
    tree[v] = key;
    for _ in 0..10u32 {
        x = tree[beside(v)].min(x);
        v /= 2;
        tree[v] = x;
    }
}

// Plays all nodes, from the leaves as they stand.
pub fn play(tree: &mut [u64])
    requires { length tree.old ≡ 2048 }
    ensures { Tree tree.new × (leaves tree.new ≡ leaves tree.old) }
{
    for v in (1..1024).rev() {
        tree[v] = tree[2 * v].min(tree[2 * v + 1]);
    }
}
