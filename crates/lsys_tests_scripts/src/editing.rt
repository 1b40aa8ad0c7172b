//! Scripts of edits.
use crate::Script;

/// Edits, of each feature of the language, and what is asked anew at them.
pub fn edits() -> &'static [Script] {
    &[
        Script {
            name: "productions that are changed and put again",
            text: "axiom A\nproduction a: A => AB\nproduction b: B => A\ndepth 5\nstring\nproduction b: B => B\nstring\nproduction b: B => B\n",
            replies: "ok 0/0\nok 0/0\nok 0/0\nok 19/19\nABAABABAABAAB\nok 10/15\nABBBBB\nok 0/15\n",
        },
        Script {
            name: "a signal",
            text: "axiom F_b[+F_a]F_a[-F_a]F_a[+F_a]F_a\nignore +-\nproduction s: F_b < F_a => F_b\ndepth 3\nstring\naxiom F_a[+F_a]F_a[-F_a]F_a[+F_a]F_a\n",
            replies: "ok 0/0\nok 0/0\nok 0/0\nok 12/12\nF_b[+F_b]F_b[-F_b]F_b[+F_b]F_b\nok 15/21\n",
        },
        Script {
            name: "parameters",
            text: "axiom B(2)A(4,4)\nproduction a: A(x,y) : y <= 3 => A(x*2,x+y)\nproduction b: A(x,y) : y > 3 => B(x)A(x/y,0)\nproduction c: B(x) : x < 1 => C\nproduction d: B(x) : x >= 1 => B(x-1)\ndepth 5\nstring 1\nstring 2\nstring 3\nstring 4\nstring\n",
            replies: "ok 0/0\nok 0/0\nok 0/0\nok 0/0\nok 0/0\nok 12/12\nB(1)B(4)A(1,0)\nB(0)B(3)A(2,1)\nCB(2)A(4,3)\nCB(1)A(8,7)\nCB(0)B(8)A(1,0)\n",
        },
        Script {
            name: "weights",
            text: "axiom AAA\nproduction p: A @ 0 => B\nproduction q: A @ 5 => C\ndepth 1\nstring\nseed 7\nstring\nproduction q: A @ 0 => C\nstring\nproduction q: A @ -1 => C\nstring\n",
            replies: "ok 0/0\nok 0/0\nok 0/0\nok 3/3\nCCC\nok 3/3\nCCC\nok 3/3\nAAA\nrefused fault negative-weight level 0 module 1\nAAA\n",
        },
        Script {
            name: "an insertion between symbols that did not change",
            text: "axiom ABC\nproduction c: A < C => X\nproduction e: B =>\ndepth 2\nstring\nproduction e: B => B\nstring\n",
            replies: "ok 0/0\nok 0/0\nok 0/0\nok 3/3\nAX\nok 3/4\nABC\n",
        },
        Script {
            name: "a cut comes and goes",
            text: "axiom ABC\nproduction a: A => A\nproduction c: C => D\ndepth 2\nstring\nproduction a: A => A%\nstring\nproduction a: A => A\nstring\n",
            replies: "ok 0/0\nok 0/0\nok 0/0\nok 3/3\nABD\nok 2/3\nA\nok 2/3\nABD\n",
        },
        Script {
            name: "the quadratic koch island",
            text: "axiom F-F-F-F\nproduction f: F => F-F+F+FF-F-F+F\ndepth 1\ndepth 2\ndepth 4\ndepth 5\n",
            replies: "ok 0/0\nok 0/0\nok 4/4\nok 32/36\nok 2304/2340\nrefused limit level 5\n",
        },
        Script {
            name: "a draw by what stands above",
            text: "production p: A @ 1 => B\nproduction q: A @ 1 => C\naxiom ES\nproduction e: E => E\nproduction s: S => A\ndepth 2\nstring\nproduction e: E => EE\nstring\n",
            replies: "ok 0/0\nok 0/0\nok 0/0\nok 0/0\nok 0/0\nok 4/4\nEC\nok 3/5\nEEEEC\n",
        },
        Script {
            name: "draws by two seeds",
            text: "production p: A @ 1 => B\nproduction q: A @ 1 => C\ndepth 1\naxiom A\nseed 1\nstring\naxiom +A\nseed 0\nstring\n",
            replies: "ok 0/0\nok 0/0\nok 0/0\nok 1/1\nok 1/1\nB\nok 1/1\nok 1/1\n+B\n",
        },
        Script {
            name: "the leftmost fault of the least level",
            text: "production p: A(x) : x > 0 => A(x-1)\nproduction q: A(x) => A(1/x)\ndepth 6\naxiom A(3)A(2)A(1)A(2)A(1)\naxiom A(3)A(2)A(2)\naxiom X+A(1)[A(0)]A(0)\naxiom A(6)A(7)A(8)\nstring\ndepth 7\nstring\n",
            replies: "ok 0/0\nok 0/0\nok 0/0\nrefused fault divide-by-zero level 1 module 3\nrefused fault divide-by-zero level 2 module 2\nrefused fault divide-by-zero level 0 module 4\nok 18/18\nA(0)A(1)A(2)\nrefused fault divide-by-zero level 6 module 1\nA(0)A(1)A(2)\n",
        },
        Script {
            name: "the first rule that applies",
            text: "axiom A(1)A(5)\nproduction p: A(x) : x > 3 => B(x)\nproduction q: A(x) : x > 0 => C(x)A(x-1)\nproduction r: A(x) : 1/(x-1) > 0 => D\nproduction s: A(x) => A(1/0)\ndepth 1\nstring\ndepth 2\naxiom A(5)A(1)\naxiom A(0)A(1)\n",
            replies: "ok 0/0\nok 0/0\nok 0/0\nok 0/0\nok 0/0\nok 2/2\nC(1)A(0)B(5)\nrefused fault divide-by-zero level 1 module 2\nok 2/2\nrefused fault divide-by-zero level 0 module 1\n",
        },
        Script {
            name: "an undo and a redo",
            text: "undo\naxiom A\nproduction a: A => AB\nproduction b: B => A\ndepth 5\nproduction b: B => B\nundo\nstring\nredo\nredo\nstring\naxiom B\nredo\nundo x\n",
            replies: "refused undo\nok 0/0\nok 0/0\nok 0/0\nok 19/19\nok 10/15\nok 14/19\nABAABABAABAAB\nok 10/15\nrefused redo\nABBBBB\nok 5/5\nrefused redo\nrefused syntax token 1\n",
        },
        Script {
            name: "growth without the level",
            text: "axiom A\nproduction a: A => [-A]AB\nproduction b: B => A\ngrowth 3\ngrowth 200\nproduction c: C(x) => C(x)\ngrowth 0\n",
            replies: "ok 0/0\nok 0/0\nok 0/0\ngrowth 41\n- 8\nA 12\nB 5\nrefused overflow\nok 0/0\nrefused growth\n",
        },
    ]
}
