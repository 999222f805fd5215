//! Laws of items.

ghost use Rattle.em_grammar.specs.ItemLaws.{AttributesRead, FileAttributesRead, FileAttributesExact, FileAttributesEnd, VisRead, ItemsRead, ItemListsRead, ItemsSteady, ItemsExact, OneItem, ItemsApart, FilesRead, FilesExact};
ghost use Rattle.em_grammar.specs.FragmentLaws.{PrefixesExact};

/// Attributes and visibilities are read.
pub fn attributes()
    ensures items { AttributesRead }
    ensures files { FileAttributesRead }
    ensures files_exact { FileAttributesExact }
    ensures files_end { FileAttributesEnd }
    ensures visibility { VisRead }
{}

/// Items are read, and no two of them have one yield.
pub fn items()
    ensures read { ItemsRead }
    ensures lists { ItemListsRead }
    ensures steady { ItemsSteady }
    ensures exact { ItemsExact }
    ensures one { OneItem }
    ensures apart { ItemsApart }
{}

/// So are files.
pub fn files()
    ensures read { FilesRead }
    ensures exact { FilesExact }
{}

/// The longest prefix of each kind of fragment is read, and none exactly where there is none.
pub fn prefixes()
    ensures exact { PrefixesExact }
{}
