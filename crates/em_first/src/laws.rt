ghost use Rattle.em_first.specs.Laws.{EditedLexes, FindingsFit, KeepsCore, KeepsEvents, NothingLeft, OneCore, ProgramsAreFiles};
ghost use Rattle.em_first.specs.Sample.{HasSample, KeepsSample, SampleBegins, SamplePrints};

use em_edit::{first_part_first, no_part_keeps};
use em_lex::{marked_text_lexes, tokens_lie_in_text};

/// A program of 2015 is one of 2018 with the same statements where the words that 2018 takes are raw.
#[tactic(auto, using(crate::proofs::Keeps::keeps_core))]
pub fn core_is_kept()
    ensures { KeepsCore }
{}

/// A program has one list of statements.
pub fn core_is_one()
    ensures { OneCore }
{}

/// No word that 2018 takes is left.
#[tactic(auto, using(crate::proofs::Keeps::nothing_left))]
pub fn nothing_is_left()
    ensures { NothingLeft }
{}

/// The findings of a text can be applied to it.
pub fn findings_fit()
    ensures { FindingsFit }
{
    tokens_lie_in_text();
}

/// The text after the findings has the moved tokens.
pub fn edited_text_lexes()
    ensures { EditedLexes }
{
    no_part_keeps();
    first_part_first();
    marked_text_lexes();
    tokens_lie_in_text();
}

/// Both programs print the same, after any number of statements.
pub fn events_are_kept()
    ensures { KeepsEvents }
{}

/// The tokens of a text that are a program of the first form are a file of the grammar.
pub fn programs_are_files()
    ensures { ProgramsAreFiles }
{}

/// A program of the first form, and what it prints, so that the laws speak of something.
pub fn a_sample()
    ensures core { HasSample }
    ensures kept { KeepsSample }
    ensures begins { SampleBegins }
    ensures prints { SamplePrints }
{}
