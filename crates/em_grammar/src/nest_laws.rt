//! How deep a tree nests is the least depth that it is within.

ghost use Rattle.em_grammar.specs.NestLaws.{PathsNest, TypesNest, PatsNest, TopPatsNest, ExprsNest, StmtsNest, FragmentStmtsNest, BlocksNest, BodiesNest, ItemsNest, FilesNest, FragmentsNest};

/// Paths, types and patterns nest so.
pub fn types_nest()
    ensures paths { PathsNest }
    ensures types { TypesNest }
    ensures pats { PatsNest }
    ensures top_pats { TopPatsNest }
{}

/// Expressions, statements and blocks nest so.
pub fn exprs_nest()
    ensures exprs { ExprsNest }
    ensures stmts { StmtsNest }
    ensures fragments { FragmentStmtsNest }
    ensures blocks { BlocksNest }
    ensures bodies { BodiesNest }
{}

/// Items and files nest so.
pub fn items_nest()
    ensures items { ItemsNest }
    ensures files { FilesNest }
{}

/// Fragments of macros nest so.
pub fn fragments_nest()
    ensures fragments { FragmentsNest }
{}
