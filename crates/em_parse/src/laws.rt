//! Laws of the calls.

ghost use Rattle.em_parse.specs.Decided.{FilesAreDecided, ListsAreDecided, BodiesAreDecided, FragmentsAreDecided};
ghost use Rattle.em_parse.specs.Laws.{FilesAreOne, ListsAreOne, BodiesAreOne, FragmentsAreOne, FilesAreReadAgain, ListsAreReadAgain, BodiesAreReadAgain, FragmentsAreReadAgain};
ghost use Rattle.em_parse.specs.Parts.{Readings};

/// Each category that a fragment may be is read.
fn readings()
    ensures { Readings }
{
    em_grammar::macro_text();
    em_grammar::literals();
    em_grammar::types();
    em_grammar::paths();
    em_grammar::pats();
    em_grammar::top_pats();
    em_grammar::exprs();
    em_grammar::stmts();
    em_grammar::blocks();
    em_grammar::items();
}

/// What a call answers is the only tree that has its yield, however deep another may nest. The yield of a file's tree is the
/// file's tokens, and that of a fragment the pieces that were taken.
pub fn trees_are_one()
    ensures files { FilesAreOne }
    ensures lists { ListsAreOne }
    ensures bodies { BodiesAreOne }
    ensures fragments { FragmentsAreOne }
{
    em_grammar::groups();
    readings();
    em_grammar::bodies();
    em_grammar::files();
}

/// What tokens and pieces are decides the answer, but for want of memory: no two of the answers of a call hold at once, and
/// each of them once. Of lists of items that is so where fragments stand in one another at most 200 times.
pub fn answers_are_decided()
    ensures files { FilesAreDecided }
    ensures lists { ListsAreDecided }
    ensures bodies { BodiesAreDecided }
    ensures fragments { FragmentsAreDecided }
{
    em_grammar::groups();
    readings();
    em_grammar::bodies();
    em_grammar::items();
    em_grammar::items_nest();
    em_grammar::attributes();
    em_grammar::fragments_nest();
}

/// A tree within the limits is read again from its own yield: no other answer but want of memory holds.
pub fn trees_are_read_again()
    ensures files { FilesAreReadAgain }
    ensures lists { ListsAreReadAgain }
    ensures bodies { BodiesAreReadAgain }
    ensures fragments { FragmentsAreReadAgain }
{
    answers_are_decided();
    em_grammar::groups();
    readings();
    em_grammar::bodies();
    em_grammar::exprs_nest();
    em_grammar::fragments_nest();
}
