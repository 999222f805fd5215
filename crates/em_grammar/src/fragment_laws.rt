//! Laws of fragments of macros.

ghost use Rattle.em_grammar.specs.FragmentReader.{FragmentsRead};

/// The longest prefix of each kind is read, and none exactly where there is none.
pub fn fragments()
    ensures read { FragmentsRead }
{}
