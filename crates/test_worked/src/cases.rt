// Bid texts that are read, with a label each: the worked cases 9 and 10, texts with a reserve, and their near misses.

// The worked case 9.
pub(crate) const WORKED_NINE: [(&str, &str); 10] = [
    (
        "price 100000000",
        "(tender single 0 100)\n(bid 11 100000000 (0 50))\n",
    ),
    (
        "price 100000001",
        "(tender single 0 100)\n(bid 11 100000001 (0 50))\n",
    ),
    (
        "end 10080",
        "(tender single 0 100)\n(bid 11 30 (0 10080))\n",
    ),
    (
        "end 10081",
        "(tender single 0 100)\n(bid 11 30 (0 10081))\n",
    ),
    ("window (5 5)", "(tender single 0 100)\n(bid 11 30 (5 5))\n"),
    (
        "swapped window",
        "(tender single 0 100)\n(bid 11 30 (9 3))\n",
    ),
    ("price 007", "(tender single 0 100)\n(bid 11 007 (0 50))\n"),
    ("price 0", "(tender single 0 100)\n(bid 11 0 (0 50))\n"),
    (
        "nine digits",
        "(tender single 0 100)\n(bid 999999999 30 (0 50))\n",
    ),
    (
        "ten digits",
        "(tender single 0 100)\n(bid 1000000000 30 (0 50))\n",
    ),
];

// A late end beside an empty window: 15 and 5, on a bid's line and on the tender's.
pub(crate) const LATE_ENDS: [(&str, &str); 12] = [
    (
        "late and swapped",
        "(tender single 0 100)\n(bid 11 30 (10082 10081))\n",
    ),
    (
        "late and empty",
        "(tender single 0 100)\n(bid 11 30 (10081 10081))\n",
    ),
    (
        "a late window before an empty one",
        "(tender multi 0 100)\n(bid 11 30 (0 10081) (5 5))\n",
    ),
    (
        "an empty window before a late one",
        "(tender multi 0 100)\n(bid 11 30 (5 5) (0 10081))\n",
    ),
    (
        "a late window between two others",
        "(tender multi 0 100)\n(bid 11 30 (0 10080) (0 10081) (1 2))\n",
    ),
    (
        "two late windows in a single tender",
        "(tender single 0 100)\n(bid 11 30 (0 10081) (0 10082))\n",
    ),
    (
        "price above its limit with a late window",
        "(tender single 0 100)\n(bid 11 100000001 (0 10081))\n",
    ),
    (
        "bidder again with a late window",
        "(tender single 0 100)\n(bid 11 30 (0 50))\n(bid 11 30 (0 10081))\n",
    ),
    ("tender end 10080", "(tender single 0 10080)\n"),
    ("tender end 10081", "(tender single 0 10081)\n"),
    ("tender (7 7)", "(tender single 7 7)\n"),
    ("tender late and swapped", "(tender single 10082 10081)\n"),
];

// The reserve line: 3 and 16, and 2 before both.
pub(crate) const RESERVES: [(&str, &str); 15] = [
    (
        "reserve 5000",
        "(tender single 0 100)\n(reserve 5000)\n(bid 11 30 (0 50))\n",
    ),
    ("reserve 0", "(tender single 0 100)\n(reserve 0)\n"),
    (
        "reserve 100000000",
        "(tender single 0 100)\n(reserve 100000000)\n(bid 11 30 (0 50))\n",
    ),
    (
        "reserve 100000001",
        "(tender single 0 100)\n(reserve 100000001)\n(bid 11 30 (0 50))\n",
    ),
    (
        "reserve after a bid",
        "(tender single 0 100)\n(bid 11 30 (0 50))\n(reserve 5000)\n",
    ),
    (
        "a second reserve",
        "(tender single 0 100)\n(reserve 5000)\n(reserve 4000)\n",
    ),
    (
        "reserve 100000001 after a bid",
        "(tender single 0 100)\n(bid 11 30 (0 50))\n(reserve 100000001)\n",
    ),
    (
        "reserve on line 1",
        "(reserve 5000)\n(tender single 0 100)\n",
    ),
    ("reserve 007", "(tender single 0 100)\n(reserve 007)\n"),
    (
        "reserve without a price",
        "(tender single 0 100)\n(reserve)\n",
    ),
    (
        "reserve with a last space",
        "(tender single 0 100)\n(reserve 5 )\n",
    ),
    (
        "reserve with two prices",
        "(tender single 0 100)\n(reserve 5 6)\n",
    ),
    (
        "reserve without a last byte 10",
        "(tender single 0 100)\n(reserve 5)",
    ),
    (
        "reserve 007 after a bid",
        "(tender single 0 100)\n(bid 11 30 (0 50))\n(reserve 007)\n",
    ),
    (
        "bidder again after a reserve",
        "(tender single 0 100)\n(reserve 5000)\n(bid 11 30 (0 50))\n(bid 11 30 (0 50))\n",
    ),
];

// Texts that are cut short, and bytes that no text has.
pub(crate) const BYTES: [(&str, &str); 6] = [
    ("empty text", ""),
    ("no bids", "(tender single 0 100)\n"),
    (
        "no last byte 10",
        "(tender single 0 100)\n(bid 11 30 (0 50))",
    ),
    (
        "empty last line",
        "(tender single 0 100)\n(bid 11 30 (0 50))\n\n",
    ),
    (
        "CR before byte 10",
        "(tender single 0 100)\r\n(bid 11 30 (0 50))\r\n",
    ),
    ("byte 0", "(tender single 0 100)\n(bid 11 30 (0 50))\0\n"),
];

// Two windows where a bid may have one.
pub(crate) const SEVERAL: [(&str, &str); 2] = [
    (
        "two windows in a single tender",
        "(tender single 0 100)\n(bid 11 30 (0 50) (9 5))\n",
    ),
    (
        "bidder 0 with two windows",
        "(tender single 0 100)\n(bid 0 30 (0 50) (9 5))\n",
    ),
];
