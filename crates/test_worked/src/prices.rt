// Prices in both spellings, as whole cents and with a point, and their near misses.

// A point before two digits.
pub(crate) const POINTED: [(&str, &str); 4] = [
    (
        "price 0.00",
        "(tender single 0 100)\n(bid 11 0.00 (0 50))\n",
    ),
    (
        "price 0.05",
        "(tender single 0 100)\n(bid 11 0.05 (0 50))\n",
    ),
    (
        "price 2.50",
        "(tender single 0 100)\n(bid 11 2.50 (0 50))\n",
    ),
    (
        "price 1000000.00",
        "(tender single 0 100)\n(bid 11 1000000.00 (0 50))\n",
    ),
];

// The limit of a price, which is 3; and reserves with a point.
pub(crate) const LIMITS: [(&str, &str); 8] = [
    (
        "price 1000000.01",
        "(tender single 0 100)\n(bid 11 1000000.01 (0 50))\n",
    ),
    (
        "price 9999999.99",
        "(tender single 0 100)\n(bid 11 9999999.99 (0 50))\n",
    ),
    ("reserve 50.00", "(tender single 0 100)\n(reserve 50.00)\n"),
    ("reserve 0.00", "(tender single 0 100)\n(reserve 0.00)\n"),
    ("reserve 0.05", "(tender single 0 100)\n(reserve 0.05)\n"),
    (
        "reserve 1000000.00",
        "(tender single 0 100)\n(reserve 1000000.00)\n",
    ),
    (
        "reserve 1000000.01",
        "(tender single 0 100)\n(reserve 1000000.01)\n",
    ),
    (
        "reserve 9999999.99",
        "(tender single 0 100)\n(reserve 9999999.99)\n",
    ),
];

// Words that are just not a price: 2, as a bid's and as the reserve's.
pub(crate) const MISSPELT: [(&str, &str); 18] = [
    ("price .50", "(tender single 0 100)\n(bid 11 .50 (0 50))\n"),
    ("price 2.", "(tender single 0 100)\n(bid 11 2. (0 50))\n"),
    ("price 2.5", "(tender single 0 100)\n(bid 11 2.5 (0 50))\n"),
    (
        "price 2.500",
        "(tender single 0 100)\n(bid 11 2.500 (0 50))\n",
    ),
    (
        "price 02.50",
        "(tender single 0 100)\n(bid 11 02.50 (0 50))\n",
    ),
    (
        "price 00.50",
        "(tender single 0 100)\n(bid 11 00.50 (0 50))\n",
    ),
    (
        "price 12345678.00",
        "(tender single 0 100)\n(bid 11 12345678.00 (0 50))\n",
    ),
    (
        "price 2.5.0",
        "(tender single 0 100)\n(bid 11 2.5.0 (0 50))\n",
    ),
    (
        "price 2,50",
        "(tender single 0 100)\n(bid 11 2,50 (0 50))\n",
    ),
    ("reserve .50", "(tender single 0 100)\n(reserve .50)\n"),
    ("reserve 2.", "(tender single 0 100)\n(reserve 2.)\n"),
    ("reserve 2.5", "(tender single 0 100)\n(reserve 2.5)\n"),
    ("reserve 2.500", "(tender single 0 100)\n(reserve 2.500)\n"),
    ("reserve 02.50", "(tender single 0 100)\n(reserve 02.50)\n"),
    ("reserve 00.50", "(tender single 0 100)\n(reserve 00.50)\n"),
    (
        "reserve 12345678.00",
        "(tender single 0 100)\n(reserve 12345678.00)\n",
    ),
    ("reserve 2.5.0", "(tender single 0 100)\n(reserve 2.5.0)\n"),
    ("reserve 2,50", "(tender single 0 100)\n(reserve 2,50)\n"),
];

// A point in a number that is no price, and a price with a point beside other faults.
pub(crate) const ELSEWHERE: [(&str, &str); 11] = [
    (
        "bidder 1.00",
        "(tender single 0 100)\n(bid 1.00 30 (0 50))\n",
    ),
    (
        "window (0.00 5)",
        "(tender single 0 100)\n(bid 11 30 (0.00 5))\n",
    ),
    (
        "window (0 5.00)",
        "(tender single 0 100)\n(bid 11 30 (0 5.00))\n",
    ),
    ("tender (0.00 5)", "(tender single 0.00 5)\n"),
    (
        "reserve 50.00 after a bid",
        "(tender single 0 100)\n(bid 11 2.50 (0 50))\n(reserve 50.00)\n",
    ),
    (
        "reserve 1000000.01 after a bid",
        "(tender single 0 100)\n(bid 11 2.50 (0 50))\n(reserve 1000000.01)\n",
    ),
    (
        "reserve 50.0 after a bid",
        "(tender single 0 100)\n(bid 11 2.50 (0 50))\n(reserve 50.0)\n",
    ),
    (
        "price 1000000.01 with two windows",
        "(tender single 0 100)\n(bid 11 1000000.01 (0 4) (6 8))\n",
    ),
    (
        "price 2.50 with two windows",
        "(tender single 0 100)\n(bid 11 2.50 (0 4) (6 8))\n",
    ),
    (
        "price 2.50 with an empty window",
        "(tender single 0 100)\n(bid 11 2.50 (9 9))\n",
    ),
    (
        "bidder again, the price in the other spelling",
        "(tender single 0 100)\n(bid 11 2.50 (0 50))\n(bid 11 250 (0 50))\n",
    ),
];
