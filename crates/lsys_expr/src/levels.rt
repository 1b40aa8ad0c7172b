//! What is open around an operand.
ghost use Rattle.std.specs.Prelude.{◌≡◌, ◌<◌, ◌≤◌, ◌∷◌, [], drop, true, false};
ghost use Rattle.lsys_expr.specs.Levels.{fresh, inner_nesting, with_prefix, shallow, comparing, cleared, is_compared, is_inside};

use std::marker::Model;

/// How many of `(`, prefix `-`, prefix `!` and `^` may be open at once.
pub(crate) const MOST_OPEN: u8 = 32;

/// What was read after a parenthesis, or from the start, of what isn't closed yet.
#[derive(Clone, Copy)]
pub(crate) struct OpenLevel {
    /// How many of prefix `-`, prefix `!` and `^` wait for the end of their operand.
    pub(crate) prefixes: u8,
    /// Whether the operand is on the right of a comparison.
    pub(crate) compared: bool,
}

impl OpenLevel {
    const FRESH: OpenLevel = OpenLevel {
        prefixes: 0,
        compared: false,
    };
}

/// The levels from the innermost to the outermost.
#[derive(Drop)]
pub(crate) struct OpenLevels {
    innermost: OpenLevel,
    outer: [OpenLevel; 32],
    first: usize,
    open: u8,
}

impl Model for OpenLevels {
    ghost use Rattle.std.specs.Prelude.{List};
    ghost use Rattle.lsys_expr.specs.declared.levels.OpenLevel.{OpenLevel};

    ghost Value = { List OpenLevel };

    ghost use Rattle.lsys_expr.specs.InsideLevels.{inside_levels, CountsOpen};

    ghost view = { inside_levels };

    ghost invariant = { CountsOpen };
}

impl OpenLevels {
    /// The outermost level alone.
    pub(crate) fn new() -> OpenLevels
        ensures levels { result ≡ fresh ∷ [] }
        ensures within { inner_nesting result ≤ 32 }
    {
        OpenLevels {
            innermost: OpenLevel::FRESH,
            outer: [OpenLevel::FRESH; 32],
            first: 32,
            open: 0,
        }
    }

    /// Whether no more may be opened.
    pub(crate) fn is_full(&self) -> bool
        ensures full { result ≡ true → inner_nesting self.now ≡ 32 }
        ensures room { result ≡ false → inner_nesting self.now < 32 }
    {
        self.open == MOST_OPEN
    }

    /// Whether a parenthesis is open.
    pub(crate) fn is_inside(&self) -> bool
        ensures { result ≡ is_inside self.now }
    {
        self.first < self.outer.len()
    }

    /// Opens a parenthesis.
    pub(crate) fn open_parenthesis(&mut self)
        requires { inner_nesting self.old < 32 }
        ensures levels { self.new ≡ fresh ∷ self.old }
        ensures within { inner_nesting self.new ≤ 32 }
    {
        self.first -= 1;
        self.outer[self.first] = self.innermost;
        self.innermost = OpenLevel::FRESH;
        self.open += 1;
    }

    /// Closes the innermost parenthesis.
    pub(crate) fn close_parenthesis(&mut self)
        requires { is_inside self.old ≡ true }
        ensures levels { self.new ≡ drop 1 self.old }
        ensures within { inner_nesting self.new ≤ 32 }
    {
        self.open -= self.innermost.prefixes + 1;
        self.innermost = self.outer[self.first];
        self.first += 1;
    }

    /// Opens a prefix or a power.
    pub(crate) fn open_prefix(&mut self)
        requires { inner_nesting self.old < 32 }
        ensures levels { self.new ≡ with_prefix self.old }
        ensures within { inner_nesting self.new ≤ 32 }
    {
        self.innermost.prefixes += 1;
        self.open += 1;
    }

    /// Ends the prefixes and powers of the innermost level.
    pub(crate) fn end_prefixes(&mut self)
        ensures levels { self.new ≡ shallow self.old }
        ensures within { inner_nesting self.new ≤ 32 }
    {
        self.open -= self.innermost.prefixes;
        self.innermost.prefixes = 0;
    }

    /// Whether a comparison was read at the innermost level.
    pub(crate) fn is_compared(&self) -> bool
        ensures { result ≡ is_compared self.now }
    {
        self.innermost.compared
    }

    /// Ends the prefixes and powers of the innermost level, at a comparison.
    pub(crate) fn compare(&mut self)
        ensures levels { self.new ≡ comparing self.old }
        ensures within { inner_nesting self.new ≤ 32 }
    {
        self.end_prefixes();
        self.innermost.compared = true;
    }

    /// Ends what was read at the innermost level, at `&&` or `||`.
    pub(crate) fn clear(&mut self)
        ensures levels { self.new ≡ cleared self.old }
        ensures within { inner_nesting self.new ≤ 32 }
    {
        self.end_prefixes();
        self.innermost.compared = false;
    }
}
