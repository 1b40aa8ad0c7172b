//! Scripts of each part of a derivation step, of its strings and of its lines.
use crate::Script;

/// Contexts, faults, cuts, tables, and how lines end.
pub fn steps() -> &'static [Script] {
    &[
        Script {
            name: "nothing",
            text: "",
            replies: "",
        },
        Script {
            name: "the string of the opening system",
            text: "string\n",
            replies: "\n",
        },
        Script {
            name: "contexts that skip",
            text: "axiom ABC[DE][SG[HI[JK]L]MNO]\nproduction p: BC < S > G[H]M => X\ndepth 1\nstring\n",
            replies: "ok 0/0\nok 0/0\nok 1/1\nABC[DE][XG[HI[JK]L]MNO]\n",
        },
        Script {
            name: "parametric contexts",
            text: "axiom A(4)B(5)C(6)\nproduction p: A(x) < B(y) > C(z) : x+y+z > 10 => E((x+y)/2)F((y+z)/2)\ndepth 1\nstring\n",
            replies: "ok 0/0\nok 0/0\nok 1/1\nA(4)E(4)F(5)C(6)\n",
        },
        Script {
            name: "a fault",
            text: "axiom A(10)\nproduction p: A(x) => A(x*x)\ndepth 5\nstring\n",
            replies: "ok 0/0\nok 0/0\nrefused fault overflow level 4 module 1\nA(10)\n",
        },
        Script {
            name: "a cut in a branch",
            text: "axiom A[B%C[D]]E\nstring\n",
            replies: "ok 0/0\nA[B]E\n",
        },
        Script {
            name: "a cut that leaves nothing",
            text: "axiom AB\nproduction p: A => %\ndepth 1\nstring\n",
            replies: "ok 0/0\nok 0/0\nok 1/1\n\n",
        },
        Script {
            name: "tables and show",
            text: "axiom A\nproduction a: A => AB\nproduction winter w: A => C\nschedule main winter\ndepth 2\nstring\nshow\ndrop w\n",
            replies: "ok 0/0\nok 0/0\nok 0/0\nok 0/0\nok 2/2\nCB\nlattice square\nseed 0\naxiom A\nignore\nproduction main a: A => AB\nproduction winter w: A => C\nschedule main winter\ndepth 2\nrefused table 6\n",
        },
        Script {
            name: "the dragon",
            text: "axiom F_l\nproduction l: F_l => F_l+F_r+\nproduction r: F_r => -F_l-F_r\ndepth 2\nstring\n",
            replies: "ok 0/0\nok 0/0\nok 0/0\nok 3/3\nF_l+F_r++-F_l-F_r+\n",
        },
        Script {
            name: "blanks in print",
            text: "axiom F_a  F_b(1)F\nstring\n",
            replies: "ok 0/0\nF_a F_b(1)F\n",
        },
        Script {
            name: "a line ends with CR and LF, and the last one with neither",
            text: "axiom A\r\nstring",
            replies: "ok 0/0\nA\n",
        },
        Script {
            name: "nothing is answered after the end",
            text: "axiom A\nquit\nstring\n",
            replies: "ok 0/0\n",
        },
    ]
}
