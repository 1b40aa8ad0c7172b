//! Scripts that ask for the growth of a system.
use crate::Script;

/// Growth at the depth and past it, up to the last number, far past any level that could be derived, by tables in turn, and
/// outside its class.
pub fn growths() -> &'static [Script] {
    &[
        Script {
            name: "algae, up to the last number",
            text: "axiom A\nproduction a: A => AB\nproduction b: B => A\ndepth 5\ngrowth 5\ngrowth 184\ngrowth 185\n",
            replies: "ok 0/0\nok 0/0\nok 0/0\nok 19/19\ngrowth 13\nA 8\nB 5\ngrowth 332825110087067562321196029789634457848\nA 205697230343233228174223751303346572685\nB 127127879743834334146972278486287885163\nrefused overflow\n",
        },
        Script {
            name: "a level far away",
            text: "axiom A\nproduction a: A => AB\ngrowth 1000000000000000000\n",
            replies: "ok 0/0\nok 0/0\ngrowth 1000000000000000001\nA 1\nB 1000000000000000000\n",
        },
        Script {
            name: "tables in turn",
            text: "axiom A\nproduction a: A => AA\nproduction winter w: A => A\nschedule main winter\ngrowth 7\n",
            replies: "ok 0/0\nok 0/0\nok 0/0\nok 0/0\ngrowth 16\nA 16\n",
        },
        Script {
            name: "contexts and parameters",
            text: "axiom A(4)B(5)C(6)\nproduction p: A(x) < B(y) > C(z) : x+y+z > 10 => E((x+y)/2)F((y+z)/2)\ngrowth 1\n",
            replies: "ok 0/0\nok 0/0\nrefused growth\n",
        },
    ]
}
