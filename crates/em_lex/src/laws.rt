ghost use Rattle.em_lex.specs.Laws.{OneLexing, ListExcludesFault, OneFault, ListOrFault, MarkedLexes, TokensInText};

/// A text has one list of tokens.
pub fn lexing_is_one()
    ensures { OneLexing }
{}

/// A text that has tokens has no fault.
pub fn list_excludes_fault()
    ensures { ListExcludesFault }
{}

/// A text has one first fault.
pub fn fault_is_one()
    ensures { OneFault }
{}

/// A text has tokens or a first fault.
pub fn list_or_fault()
    ensures { ListOrFault }
{}

/// The text of 2015 in which chosen words are raw has the same tokens in 2018, with those words raw and all places moved.
#[tactic(auto, using(crate::proofs::Marked::marked_lexes))]
pub fn marked_text_lexes()
    ensures { MarkedLexes }
{}

/// The tokens of a text lie in it in order, each with the bytes of its span, and cut no character. What lies between them
/// is whitespace and comments alone, by the definition of `Lexes`.
#[tactic(auto, using(crate::proofs::Places::tokens_in_text))]
pub fn tokens_lie_in_text()
    ensures { TokensInText }
{}
