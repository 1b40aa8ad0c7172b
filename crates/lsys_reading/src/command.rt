//! Commands.
ghost use Rattle.std.specs.Prelude.{◌≡◌};
ghost use Rattle.lsys_syntax.specs.Sentences.{AreTokens};
ghost use Rattle.lsys_text.specs.Tokens.{kind_row};
ghost use Rattle.lsys_module.specs.Building.{AreOfLine};
ghost use Rattle.lsys_reading.specs.Parted.{command_of, IsParted};
ghost use Rattle.lsys_reading.specs.Parsing.{kind_of_command};

use crate::line_tokens::LineTokens;
use crate::parts::CommandParts;
use lsys_text::Token;
use std::marker::Model;

/// A line's command: its tokens, and what they are the parts of. Contracts see the tokens, which spell the command.
#[derive(Drop)]
pub struct ReadCommand {
    pub(crate) line: LineTokens,
    pub(crate) parts: CommandParts,
}

impl Model for ReadCommand {
    ghost use Rattle.std.specs.Prelude.{List};
    ghost use Rattle.lsys_text.specs.declared.token_kind.Token.{Token};

    ghost Value = { List Token };

    ghost use Rattle.lsys_reading.specs.InsideCommand.{command_tokens, SpellsParts};

    ghost view = { command_tokens };

    ghost invariant = { SpellsParts };
}

/// What a command is for.
#[derive(Clone, Copy, PartialEq, Eq, Debug)]
pub enum CommandKind {
    /// It changes the system.
    Edit,
    /// It prints a level: the last one without a number.
    String { level: Option<u64> },
    /// It prints the segments of the picture.
    Segments,
    /// It prints the picture.
    Svg,
    /// It prints the system as a script.
    Show,
    /// It ends the session.
    Quit,
}

impl ReadCommand {
    /// What the command is for.
    pub fn kind(&self) -> CommandKind
        ensures { result ≡ kind_of_command (command_of self.now) }
    {
        match &self.parts {
            CommandParts::String(level) => CommandKind::String { level: *level },
            CommandParts::Segments => CommandKind::Segments,
            CommandParts::Svg => CommandKind::Svg,
            CommandParts::Show => CommandKind::Show,
            CommandParts::Quit => CommandKind::Quit,
            _ => CommandKind::Edit,
        }
    }

    /// The tokens of its line.
    pub fn tokens(&self) -> &[Token]
        ensures tokens { result.now ≡ self.now }
        ensures forms { AreTokens (kind_row self.now) }
        ensures line { AreOfLine self.now }
    {
        &self.line.tokens
    }

    /// What the tokens are the parts of.
    pub fn parts(&self) -> &CommandParts
        ensures { IsParted (kind_row self.now) result.now }
    {
        &self.parts
    }
}
