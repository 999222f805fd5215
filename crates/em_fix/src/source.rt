ghost use Rattle.std.specs.Prelude.{◌≡◌, ◌≤◌, ◌<◌, ◌^◌, ℕ, List, [], ◌∷◌, length, IfOk, IfErr, OnOk};
ghost use Rattle.em_edit.specs.Edited.{edited};
ghost use Rattle.em_edit.specs.Fit.{AreApplicable};
ghost use Rattle.em_base.specs.declared.edition.Edition.TheVariants.{E2015};
ghost use Rattle.em_lex.specs.Lexing.{Lexes};
ghost use Rattle.em_parse.specs.Calls.{IsWhole};
ghost use Rattle.em_tree.specs.declared.item.FileTree.{FileTree};
ghost use Rattle.em_fix.specs.Answers.{SourceRefuses};
ghost use Rattle.em_fix.specs.Source.{MovesSource, EditsMove};

use crate::status::{Phase, Status};
use em_base::{Bytes, Edition, Limit, List, NoMemory, Place, Suggestion, Tokens};
use em_edit::{BadEdit, apply};
use em_first::{is_first_form, keyword_findings};
use em_lex::{LexError, Lexings, lex};
use em_parse::{ParseError, parse_file};
use std::alloc::Global;

/// A source before and after its migration, and what was found in it.
#[derive(Debug, Drop)]
pub struct MovedSource {
    pub old: Bytes,
    pub new: Bytes,
    pub found: List<Suggestion>,
}

/// Any program with all that is found in it applied is moved.
#[tactic(auto, using(crate::proofs::Sources::edits_move))]
fn edited_programs_are_moved()
    ensures { EditsMove }
{
    em_lex::lexing_is_one();
    em_first::core_is_one();
    em_first::core_is_kept();
    em_first::nothing_is_left();
    em_first::edited_text_lexes();
}

/// The only element of a list.
fn only(list: List<Bytes>) -> Bytes
    requires { length list ≡ 1 }
    ensures { list ≡ result ∷ [] }
{
    list.into_vec().remove(0)
}

/// A source, and the same with what was found applied to it.
fn with_edits(
    alloc: Global,
    source: Bytes,
    found: &List<Suggestion>,
) -> Result<(Bytes, Bytes), NoMemory>
    requires few { length found.now < 2 ^ 32 }
    requires fit { AreApplicable (source ∷ []) found.now }
    ensures { IfOk result (λ pair. (pair.0 ≡ source) × (pair.1 ≡ edited 0 found.now source)) }
{
    let mut sources = List::new(alloc);
    sources.push(source)?;
    match apply(alloc, &sources, found) {
        Ok(edited) => Ok((only(sources), only(edited))),
        Err(error) => {
            let is_memory = matches!(error, BadEdit::NoMemory);
            prove!(is_memory);
            Err(NoMemory)
        }
    }
}

/// The tokens of a source, or why it has none.
fn tokens_of(alloc: Global, source: &[u8]) -> Result<Tokens, Status>
    requires { length source.now ≤ 4194304 }
    ensures ok { IfOk result (λ tokens. Lexes 0 E2015 source.now tokens.list) }
    ensures err { IfErr result (SourceRefuses source.now) }
{
    match lex(alloc, 0, Edition::E2015, source, &mut Lexings::new()) {
        Ok(tokens) => Ok(tokens),
        Err(LexError::NoMemory) => Err(Status::NoMemory),
        Err(LexError::At { offset, kind }) => Err(Status::NotAccepted {
            place: Place { file: 0, offset },
            phase: Phase::Lex(kind),
        }),
        Err(LexError::Limit(limit)) => Err(Status::Limit(limit)),
    }
}

/// Parses tokens as a whole file, or tells why a text that has them is refused.
fn parse_whole(alloc: Global, tokens: &Tokens) -> Result<(), Status>
    ensures ok { OnOk result ((tree : FileTree) × IsWhole tokens.now.list tree) }
    ensures err { IfErr result (λ status. (text : List ℕ) → Lexes 0 E2015 text tokens.now.list
        → SourceRefuses text status) }
{
    match parse_file(alloc, tokens) {
        Ok(_) => Ok(()),
        Err(ParseError::NoMemory) => Err(Status::NoMemory),
        Err(ParseError::NoItem { offset }) => {
            let place = Place { file: 0, offset };
            Err(Status::NotAccepted {
                place,
                phase: Phase::Parse,
            })
        }
        Err(ParseError::Depth { .. }) => Err(Status::Limit(Limit::Nesting)),
    }
}

/// The source of the next edition, where it is a program of the first form, or why it is refused.
#[tactic(auto, using(crate::proofs::Sources::few_findings))]
pub fn moved_source(alloc: Global, source: Bytes) -> Result<MovedSource, Status>
    requires { length source ≤ 4194304 }
    ensures ok { IfOk result (λ moved. (moved.old ≡ source) × MovesSource source moved.new moved.found) }
    ensures err { IfErr result (SourceRefuses source) }
{
    em_lex::tokens_lie_in_text();
    em_first::findings_fit();
    edited_programs_are_moved();
    let tokens = tokens_of(alloc, source.as_slice())?;
    parse_whole(alloc, &tokens)?;
    if !is_first_form(alloc, &tokens)? {
        return Err(Status::Unbuilt);
    }
    let found = keyword_findings(alloc, &tokens)?;
    let (old, new) = with_edits(alloc, source, &found)?;
    Ok(MovedSource { old, new, found })
}
