//! Scripts that are refused.
use crate::Script;

/// Lines that are refused, each in a session of its own, and the deepest nesting, which isn't.
pub fn refusals() -> &'static [Script] {
    &[
        Script {
            name: "an open branch",
            text: "production p: A => [B\n",
            replies: "refused syntax token 22\n",
        },
        Script {
            name: "an open parameter list",
            text: "axiom A(1\n",
            replies: "refused syntax token 10\n",
        },
        Script {
            name: "a byte that no token has",
            text: "axiom A$\n",
            replies: "refused syntax byte 8\n",
        },
        Script {
            name: "a name that goes on",
            text: "axiom F_aF_b\n",
            replies: "refused syntax byte 11\n",
        },
        Script {
            name: "a seed past 64 bits",
            text: "seed 18446744073709551616\n",
            replies: "refused syntax token 6\n",
        },
        Script {
            name: "a formal that isn't there",
            text: "production p: A(x) => B(y)\n",
            replies: "refused name 25\n",
        },
        Script {
            name: "a formal that is there twice",
            text: "production p: A(x) < B(x) => C\n",
            replies: "refused duplicate 24\n",
        },
        Script {
            name: "a weight beside none",
            text: "production p: A @ 1 => B\nproduction q: A => C\n",
            replies: "ok 0/0\nrefused mixed 12\n",
        },
        Script {
            name: "a label that no rule has",
            text: "drop q\n",
            replies: "refused label 6\n",
        },
        Script {
            name: "a table without rules",
            text: "schedule summer\n",
            replies: "refused table 10\n",
        },
        Script {
            name: "a level after the depth",
            text: "string 1\n",
            replies: "refused level 8\n",
        },
        Script {
            name: "a depth past 64",
            text: "depth 65\n",
            replies: "refused many 7\n",
        },
        Script {
            name: "a division that overflows",
            text: "axiom A(-9223372036854775808)\nproduction p: A(x) => A(x/-1)\ndepth 1\n",
            replies: "ok 0/0\nok 0/0\nrefused fault overflow level 0 module 1\n",
        },
        Script {
            name: "a division by zero",
            text: "axiom [+A(0)]\nproduction p: A(x) => A(1/x)\ndepth 1\n",
            replies: "ok 0/0\nok 0/0\nrefused fault divide-by-zero level 0 module 2\n",
        },
        Script {
            name: "a negative power",
            text: "axiom A(2)\nproduction p: A(x) => A(x^-1)\ndepth 1\n",
            replies: "ok 0/0\nok 0/0\nrefused fault negative-power level 0 module 1\n",
        },
        Script {
            name: "nesting that is too deep",
            text: "production p: A(x) => A((((((((((((((((((((((((((((((((((x))))))))))))))))))))))))))))))))))\n",
            replies: "refused syntax deep 57\n",
        },
        Script {
            name: "nesting as deep as it may be",
            text: "production p: A(x) => A(((((((((((((((((((((((((((((((((x)))))))))))))))))))))))))))))))))\n",
            replies: "ok 0/0\n",
        },
    ]
}

/// Lines that no token, no sentence or no number stands in, each with its reply. The first one has a byte that is no text.
pub fn hostile_lines() -> &'static [(&'static [u8], &'static str)] {
    &[
        (b"axiom \xff", "refused syntax byte 7\n"),
        (b"axiom A\rB", "refused syntax byte 8\n"),
        (b"production p: A => A(", "refused syntax token 22\n"),
        (b"seed -1", "refused syntax token 6\n"),
        (b"axiom ]", "refused syntax token 7\n"),
        (b"schedule", "refused syntax token 9\n"),
        (b"axiom A(9223372036854775808)", "refused syntax token 9\n"),
    ]
}
