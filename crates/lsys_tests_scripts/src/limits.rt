//! Scripts whose levels come to the limit.
use crate::Script;

/// Algae: five levels of 1, 2, 3, 5 and 8 symbols, and the string of the sixth.
pub fn algae() -> Script {
    Script {
        name: "algae",
        text: "axiom A\nproduction a: A => AB\nproduction b: B => A\ndepth 5\nstring\n",
        replies: "ok 0/0\nok 0/0\nok 0/0\nok 19/19\nABAABABAABAAB\n",
    }
}

/// Scripts under other limits than the program's own: the limit, what the script shows, its lines, and its replies.
pub fn limited() -> &'static [(u32, &'static str, &'static str, &'static str)] {
    &[
        (
            32,
            "lengths that sum to the limit",
            "axiom A\nproduction a: A => AB\nproduction b: B => A\ndepth 5\nstring\n",
            "ok 0/0\nok 0/0\nok 0/0\nok 19/19\nABAABABAABAAB\n",
        ),
        (
            31,
            "lengths that sum to one more",
            "axiom A\nproduction a: A => AB\nproduction b: B => A\ndepth 5\nstring\n",
            "ok 0/0\nok 0/0\nok 0/0\nrefused limit level 5\nA\n",
        ),
        (
            26,
            "a fault before the limit of the level after it",
            "axiom AB(3)\nproduction a: A => AA\nproduction b: B(x) : 1/x >= 0 => B(x-1)\ndepth 3\ndepth 4\naxiom AB(4)\ndepth 4\ndepth 5\naxiom AB(2)\ndepth 4\nstring 1\n",
            "ok 0/0\nok 0/0\nok 0/0\nok 10/10\nrefused fault divide-by-zero level 3 module 9\nok 3/10\nrefused limit level 4\nrefused limit level 4\nrefused fault divide-by-zero level 2 module 5\nrefused limit level 4\nAAB(3)\n",
        ),
    ]
}
