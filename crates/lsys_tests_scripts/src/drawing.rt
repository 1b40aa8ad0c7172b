//! Scripts that draw.
use crate::Script;

/// Pictures, and refused ones.
pub fn pictures() -> &'static [Script] {
    &[
        Script {
            name: "a segment as a picture",
            text: "axiom F\nsvg\n",
            replies: "ok 0/0\n<svg xmlns=\"http://www.w3.org/2000/svg\" viewBox=\"-10 -20 20 30\">\n<line x1=\"0\" y1=\"0\" x2=\"0\" y2=\"-10\" stroke=\"black\" stroke-width=\"1\"/>\n</svg>\n",
        },
        Script {
            name: "an empty picture",
            text: "svg",
            replies: "<svg xmlns=\"http://www.w3.org/2000/svg\" viewBox=\"-10 -10 20 20\">\n</svg>\n",
        },
        Script {
            name: "a module that reaches too far",
            text: "axiom F(1000000001)\nsegments",
            replies: "ok 0/0\nrefused far 1\n",
        },
        Script {
            name: "a fault of the image",
            text: "axiom A(0)\nhom h: A(x) => F(1/x)\nsvg",
            replies: "ok 0/0\nok 0/0\nrefused fault divide-by-zero image 1\n",
        },
        Script {
            name: "a module that reaches as far as it may",
            text: "axiom F(1000000000)\nsegments",
            replies: "ok 0/0\nsegments 1\n0 0 0 0 1000000000 0 1\n",
        },
        Script {
            name: "homomorphism",
            text: "axiom AA\nhom h: A => F(2)+\nsegments\nbounds\nat 2\nat 5\n",
            replies: "ok 0/0\nok 0/0\nsegments 2\n0 0 0 0 2 0 1\n0 2 0 -2 2 0 1\nbounds -2 0 0 2 0 0\nat 0 2 0 -1 0 0 1\nrefused place 4\n",
        },
        Script {
            name: "the hexagonal lattice",
            text: "lattice hexagonal\naxiom F+F+F+F+F+F\nsegments\nbounds\n",
            replies: "ok 0/0\nok 0/0\nsegments 6\n0 0 0 1 0 0 1\n1 0 0 1 1 0 1\n1 1 0 0 2 0 1\n0 2 0 -1 2 0 1\n-1 2 0 -1 1 0 1\n-1 1 0 0 0 0 1\nbounds -1 1 0 2 0 2\n",
        },
        Script {
            name: "the cubic lattice",
            text: "lattice cubic\naxiom F&F^F\nsegments\n",
            replies: "ok 0/0\nok 0/0\nsegments 3\n0 0 0 0 1 0 1\n0 1 0 0 1 -1 1\n0 1 -1 0 2 -1 1\n",
        },
        Script {
            name: "the first step of the quadratic Koch island",
            text: "axiom F-F-F-F\nproduction f: F => F-F+F+FF-F-F+F\ndepth 1\nsegments\n",
            replies: "ok 0/0\nok 0/0\nok 4/4\nsegments 32\n0 0 0 0 1 0 1\n0 1 0 1 1 0 1\n1 1 0 1 2 0 1\n1 2 0 0 2 0 1\n0 2 0 -1 2 0 1\n-1 2 0 -1 3 0 1\n-1 3 0 0 3 0 1\n0 3 0 0 4 0 1\n0 4 0 1 4 0 1\n1 4 0 1 3 0 1\n1 3 0 2 3 0 1\n2 3 0 2 4 0 1\n2 4 0 2 5 0 1\n2 5 0 3 5 0 1\n3 5 0 3 4 0 1\n3 4 0 4 4 0 1\n4 4 0 4 3 0 1\n4 3 0 3 3 0 1\n3 3 0 3 2 0 1\n3 2 0 4 2 0 1\n4 2 0 5 2 0 1\n5 2 0 5 1 0 1\n5 1 0 4 1 0 1\n4 1 0 4 0 0 1\n4 0 0 3 0 0 1\n3 0 0 3 1 0 1\n3 1 0 2 1 0 1\n2 1 0 2 0 0 1\n2 0 0 2 -1 0 1\n2 -1 0 1 -1 0 1\n1 -1 0 1 0 0 1\n1 0 0 0 0 0 1\n",
        },
    ]
}

/// How far pictures reach and where their turtles stand, also on deeper levels, and what is refused.
pub fn bounds_and_places() -> &'static [Script] {
    &[
        Script {
            name: "places after each symbol of a homomorphism",
            text: "axiom AA\nhom h: A => F(2)+\nat 0\nat 1\nat 2\nat 3\nat 4\nat 5\n",
            replies: "ok 0/0\nok 0/0\nat 0 0 0 0 1 0 1\nat 0 2 0 0 1 0 1\nat 0 2 0 -1 0 0 1\nat -2 2 0 -1 0 0 1\nat -2 2 0 0 -1 0 1\nrefused place 4\n",
        },
        Script {
            name: "places around a hexagon",
            text: "lattice hexagonal\naxiom F+F+F+F+F+F\nat 3\nat 11\nat 12\n",
            replies: "ok 0/0\nok 0/0\nat 1 1 0 0 1 0 1\nat 0 0 0 1 -1 0 1\nrefused place 4\n",
        },
        Script {
            name: "moves and branches in bounds and places",
            text: "axiom F[+F]Ff(7)\nbounds\nat 0\nat 5\nat 7\nat 8\n",
            replies: "ok 0/0\nbounds -1 0 0 2 0 0\nat 0 0 0 0 1 0 1\nat 0 1 0 0 1 0 1\nat 0 9 0 0 1 0 1\nrefused place 4\n",
        },
        Script {
            name: "the width after a branch",
            text: "axiom F[!(3)+F]F\nat 5\nat 6\n",
            replies: "ok 0/0\nat -1 1 0 -1 0 0 3\nat 0 1 0 0 1 0 1\n",
        },
        Script {
            name: "bounds and places on a deeper level",
            text: "axiom A\nproduction a: A => F[+A]-A\ndepth 3\nbounds\nat 5\nat 12\nat 29\nat 31\nat 40\n",
            replies: "ok 0/0\nok 0/0\nok 7/7\nbounds -1 1 0 2 0 0\nat -1 1 0 -1 0 0 1\nat -1 0 0 -1 0 0 1\nat 1 2 0 0 1 0 1\nat 1 2 0 -1 0 0 1\nat 1 0 0 1 0 0 1\n",
        },
        Script {
            name: "bounds and places on the hexagonal lattice",
            text: "lattice hexagonal\naxiom A\nproduction a: A => F[+A]-A\ndepth 3\nbounds\nat 7\nat 29\n",
            replies: "ok 0/0\nok 0/0\nok 0/0\nok 7/7\nbounds 0 3 -2 2 0 3\nat 0 2 0 -1 1 0 1\nat 3 -1 0 1 0 0 1\n",
        },
        Script {
            name: "bounds and places on the cubic lattice",
            text: "lattice cubic\naxiom A\nproduction a: A => F[&A]\\^A\nhom h: A => !(3)F(2)\ndepth 3\nbounds\nat 9\nat 30\nat 44\nat 45\n",
            replies: "ok 0/0\nok 0/0\nok 0/0\nok 0/0\nok 7/7\nbounds -3 1 -1 3 -3 1\nat 0 0 -1 0 0 1 1\nat 0 1 0 0 1 0 1\nat -1 2 0 0 0 -1 3\nat -1 2 -2 0 0 -1 3\n",
        },
        Script {
            name: "places after an edit",
            text: "axiom F\nat 1\naxiom F(2)\nat 1\nundo\nbounds\n",
            replies: "ok 0/0\nat 0 1 0 0 1 0 1\nok 0/0\nat 0 2 0 0 1 0 1\nok 0/0\nbounds 0 0 0 1 0 0\n",
        },
        Script {
            name: "a turtle that moves too far",
            text: "axiom f(1000000000)f\nbounds\nat 1\n",
            replies: "ok 0/0\nrefused far 2\nrefused far 2\n",
        },
        Script {
            name: "an image that fails has no bounds",
            text: "axiom AB\nhom h: B => F(1/0)\nbounds\nat 0\n",
            replies: "ok 0/0\nok 0/0\nrefused fault divide-by-zero image 2\nrefused fault divide-by-zero image 2\n",
        },
    ]
}
