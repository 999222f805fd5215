//! Laws of the grammar: how each category is read, and that no two trees have one yield.

ghost use Rattle.em_grammar.specs.Laws.{GroupsNest, LiteralsRead, LiteralsSteady, LiteralsExact, OneLiteral, IntsRead, IntsSteady, IntsExact, PlainPathsRead, PlainPathsSteady, PlainPathsExact, PathsRead, PathsSteady, PathsExact, OnePath, TypesRead, TypesSteady, TypesExact, OneType, PatsRead, PatsSteady, PatsExact, OnePat, TopPatsRead, TopPatsSteady, TopPatsExact, OneTopPat};

/// Groups nest in one another finitely often.
pub fn groups()
    ensures nest { GroupsNest }
{}

/// Literals are read, and no two of them have one yield.
pub fn literals()
    ensures read { LiteralsRead }
    ensures steady { LiteralsSteady }
    ensures exact { LiteralsExact }
    ensures one { OneLiteral }
{}

/// So are integers.
pub fn ints()
    ensures read { IntsRead }
    ensures steady { IntsSteady }
    ensures exact { IntsExact }
{}

/// So are paths without `<`.
pub fn plain_paths()
    ensures read { PlainPathsRead }
    ensures steady { PlainPathsSteady }
    ensures exact { PlainPathsExact }
{}

/// So are paths.
pub fn paths()
    ensures read { PathsRead }
    ensures steady { PathsSteady }
    ensures exact { PathsExact }
    ensures one { OnePath }
{}

/// So are types, also those whose last `>` a `>>` behind them gives.
pub fn types()
    ensures read { TypesRead }
    ensures steady { TypesSteady }
    ensures exact { TypesExact }
    ensures one { OneType }
{}

/// So are patterns without alternatives.
pub fn pats()
    ensures read { PatsRead }
    ensures steady { PatsSteady }
    ensures exact { PatsExact }
    ensures one { OnePat }
{}

/// So are patterns with alternatives.
pub fn top_pats()
    ensures read { TopPatsRead }
    ensures steady { TopPatsSteady }
    ensures exact { TopPatsExact }
    ensures one { OneTopPat }
{}
