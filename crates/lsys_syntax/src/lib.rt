//! The syntax of a script: lines, tokens, printed pieces, the grammar as trees, and the laws that tie them.
//!
//! Definitions that contracts cite stand in `specs/`. The functions here have empty bodies: the contract is the law.
#![tactic(auto)]

ghost use Rattle.std.specs.Prelude.{◌≡◌, List, ℕ, false, [], ◌∷◌};
ghost use Rattle.lsys_syntax.specs.Lines.{lines_of};
ghost use Rattle.lsys_syntax.specs.Tokens.{tokens};
ghost use Rattle.lsys_syntax.specs.Former.{is_later_line, former_tokens};
ghost use Rattle.lsys_syntax.specs.PrintedTokens.{PrintedPiecesAreReadBack, PrintedStringsAreReadBack, ReadTokensHaveTheirForms, PrintedCommandsAreReadBack};
ghost use Rattle.lsys_syntax.specs.SentencePlaces.{SpellingsAreSentences, SentencesAreSpellings, SpellingsAreDistinct, SomeSentenceBeginsBeforeTheStop, NoSentenceGoesOnAtTheStop, NoSentenceStopsAtItsEnd, SomeSentenceBeginsBeforeTooDeep, NoSentenceWithinTheBoundGoesOn, OnlyADeeperSentenceGoesOn};
ghost use Rattle.lsys_syntax.specs.FoundExpressions.{EndedTokensAreTheExpression, NoLongerExpressionBegins, SomeExpressionBeginsBeforeTheStop, NoExpressionGoesOnAtTheStop, StoppedTokensAreNoExpression, SomeExpressionBeginsBeforeTooDeep, NoExpressionWithinTheBoundGoesOn, OnlyADeeperExpressionGoesOn, ExpressionsAreFoundWhole, ExtentsAreReadAsTheirExpressions, LinesGoOnAsTheirRules, RulesGoOnByTheirExpressions};
ghost use Rattle.lsys_syntax.specs.FormerSentences.{FormerBeginningsSpellFormerCommands, FormerBeginningsBeginFormerSentences};

/// A law of lines: the lines of a script that begins with LF are an empty line and the lines of the rest.
pub fn law_of_empty_first_line()
    ensures { (bytes : List ℕ) → lines_of (10 ∷ bytes) ≡ [] ∷ lines_of bytes }
{}

/// A law of tokens: a line printed from pieces, each of which may stand after the one before, is read as
/// the tokens that it was printed from, each at the place where it was printed. So is a printed string of
/// modules, wherever it stands in a line.
pub fn law_of_printed_tokens()
    ensures pieces { PrintedPiecesAreReadBack }
    ensures strings { PrintedStringsAreReadBack }
{}

/// A law of tokens: in every line that is read as tokens the words and names are of their form, and the numbers are
/// below 2^64.
pub fn law_of_token_forms()
    ensures { ReadTokensHaveTheirForms }
{}

/// A law of the grammar: the spelling of each command, its expressions nested at most 32 deep, is a sentence of that
/// command; and each sentence is the spelling of its command, which is so nested. No two commands have the same
/// spelling.
pub fn law_of_sentences()
    ensures sentences { SpellingsAreSentences }
    ensures spelled { SentencesAreSpellings }
    ensures distinct { SpellingsAreDistinct }
{}

/// A law of places: the verdict on tokens that are no sentence names the first token with which none goes on. A
/// sentence begins with the tokens before it. None begins with these and the token itself: none at all, or, where
/// that is too deep, none whose expressions are nested at most 32 deep, but one of a greater nesting does. Where
/// the verdict names the end, the tokens are the beginning of a sentence, and no command is spelled by them.
pub fn law_of_places()
    ensures before { SomeSentenceBeginsBeforeTheStop }
    ensures none_goes_on { NoSentenceGoesOnAtTheStop }
    ensures at_the_end { NoSentenceStopsAtItsEnd }
    ensures before_deep { SomeSentenceBeginsBeforeTooDeep }
    ensures none_within { NoSentenceWithinTheBoundGoesOn }
    ensures only_deep { OnlyADeeperSentenceGoesOn }
{}

/// A law of expression places: the extent of an expression at the front of some tokens, its nesting at most 32. Where
/// it ends, the tokens before the place are that expression, and with the token at the place none goes on, of any
/// nesting. Where it stops, an expression begins with the tokens before the place, and none goes on with the token
/// there; they are no whole one. Where it is too deep, only one of a greater nesting goes on. Each expression before
/// a token that can't go on with it is found.
pub fn law_of_expression_places()
    ensures ends { EndedTokensAreTheExpression }
    ensures none_longer { NoLongerExpressionBegins }
    ensures before { SomeExpressionBeginsBeforeTheStop }
    ensures none_goes_on { NoExpressionGoesOnAtTheStop }
    ensures not_whole { StoppedTokensAreNoExpression }
    ensures before_deep { SomeExpressionBeginsBeforeTooDeep }
    ensures none_within { NoExpressionWithinTheBoundGoesOn }
    ensures only_deep { OnlyADeeperExpressionGoesOn }
    ensures whole { ExpressionsAreFoundWhole }
    ensures read { ExtentsAreReadAsTheirExpressions }
{}

/// A law of rules: the verdict on a line after the colon of its label is that on its rule. Where an expression stands
/// next, a rule stops or nests too deep where that expression does, or goes on after it.
pub fn law_of_rule_parts()
    ensures lines { LinesGoOnAsTheirRules }
    ensures expressions { RulesGoOnByTheirExpressions }
{}

/// A law of printed commands: the line of each is read as the tokens that it was printed from, each at the place
/// where it was printed.
pub fn law_of_printed_commands()
    ensures { PrintedCommandsAreReadBack }
{}

/// A law of version 1: a line whose first token is none of `version`, `ignoring`, `consider`, `common` and `lineage` is
/// read as it was in version 1. Where it is a sentence, it is one of the commands of version 1; and where a sentence
/// begins with its tokens, one of version 1 does. So it is refused at the same token and for the same reason.
pub fn law_of_former_language()
    ensures sentences { FormerBeginningsSpellFormerCommands }
    ensures begins { FormerBeginningsBeginFormerSentences }
    ensures lines { (line : List ℕ) → is_later_line line ≡ false → tokens line ≡ former_tokens line }
{}
