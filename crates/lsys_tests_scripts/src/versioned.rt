//! Scripts of the second version of the language.
use crate::Script;

/// Own lists of tables, and lineages by names.
pub fn versions() -> &'static [Script] {
    &[
        Script {
            name: "own lists of a table",
            text: "consider main: A\nversion 2\naxiom AXC\nproduction c: A < C => D\nproduction winter k: A < C => E\nconsider winter: AC\nschedule winter\ndepth 1\nstring\ncommon winter\nstring\nversion 1\ndepth 257\n",
            replies: "refused version 1\nok 0/0\nok 0/0\nok 0/0\nok 0/0\nok 0/0\nok 0/0\nok 1/1\nAXE\nok 1/1\nAXC\nrefused version 9\nrefused many 7\n",
        },
        Script {
            name: "insertion by names",
            text: "version 2\nlineage names\naxiom A\nproduction a: A => BC\nproduction c: C => C\ndepth 2\nproduction a: A => XBC\naxiom XA\nstring\nlineage places\n",
            replies: "ok 0/0\nok 0/0\nok 0/0\nok 0/0\nok 0/0\nok 2/2\nok 1/2\nok 0/2\nXXBC\nok 2/2\n",
        },
        Script {
            name: "insertion by places",
            text: "version 2\nlineage places\naxiom A\nproduction a: A => BC\nproduction c: C => C\ndepth 2\nproduction a: A => XBC\n",
            replies: "ok 0/0\nok 0/0\nok 0/0\nok 0/0\nok 0/0\nok 2/2\nok 2/2\n",
        },
        Script {
            name: "traces told apart by their depths",
            text: "version 2\nlineage names\naxiom S[A]C\nproduction p: S > [AC] => X\ndepth 1\nstring\naxiom S[AC]\nstring\n",
            replies: "ok 0/0\nok 0/0\nok 0/0\nok 0/0\nok 1/1\nS[A]C\nok 1/1\nX[AC]\n",
        },
        Script {
            name: "refusals of version 2",
            text: "version 0\nversion 3\nversion 18446744073709551615\nignoring winter: A\ncommon main\nlineage names\nversion 2\nversion 1\nignoring winter: A\nproduction winter w: A => B\nignoring winter: A\ndrop w\ncommon winter\ndrop w\nignoring main: +++++++++++++++++++++++++++++++++++++++++++++++++++++++++++++++++\nignoring main\nlineage\n",
            replies: "refused version 9\nrefused version 9\nrefused version 9\nrefused version 1\nrefused version 1\nrefused version 1\nok 0/0\nrefused version 9\nrefused table 10\nok 0/0\nok 0/0\nrefused table 6\nok 0/0\nok 0/0\nrefused many 80\nrefused syntax token 14\nrefused syntax token 8\n",
        },
        Script {
            name: "a system of version 2 is shown and read back",
            text: "version 2\nlattice square\nseed 0\naxiom A\nignore B\nproduction main a: A < B => C\nproduction winter w: A => B\nconsider main: A F_a F_b\nignoring winter:\nschedule main winter\ndepth 70\nlineage names\nshow\n",
            replies: "ok 0/0\nok 0/0\nok 0/0\nok 0/0\nok 0/0\nok 0/0\nok 0/0\nok 0/0\nok 0/0\nok 0/0\nok 35/35\nok 35/35\nversion 2\nlineage names\nlattice square\nseed 0\naxiom A\nignore B\nproduction main a: A < B => C\nproduction winter w: A => B\nconsider main: AF_a F_b\nignoring winter:\nschedule main winter\ndepth 70\n",
        },
    ]
}
