//! Laws of replies: what their texts tell.

ghost use Rattle.lsys_laws.specs.ToldReplies.{RefusalsSayRefused, OtherRepliesDoNotSayRefused, WantOfMemoryHasItsOwnText, TextsTellTheReplies};

/// A refusal is told by its text: it is `refused`, a blank, why, and an LF; and a reply that is none never begins with
/// `refused` and a blank. Out of memory has a text of its own, so the bytes that were written tell the replies, and
/// with them which lines were refused for lack of memory.
pub fn law_of_texts()
    ensures refusal { RefusalsSayRefused }
    ensures other { OtherRepliesDoNotSayRefused }
    ensures memory { WantOfMemoryHasItsOwnText }
    ensures told { TextsTellTheReplies }
{}
