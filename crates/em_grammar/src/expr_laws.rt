//! Laws of expressions, statements and blocks.

ghost use Rattle.em_grammar.specs.TextReader.{TextsRead};
ghost use Rattle.em_grammar.specs.ExprLaws.{ExprsRead, ExprsSteady, ExprsExact, OneExpr, StmtsRead, StmtsSteady, StmtsExact, OneStmt, BlocksRead, BlocksSteady, BlocksExact, OneBlock, BodiesFound, BodiesRead, BodiesSteady, BodiesSome, BodiesWhole, OneBody};

/// The text of a macro call is read.
#[tactic(auto, using(crate::proofs::ExprLaws::texts))]
pub fn macro_text()
    ensures { TextsRead }
{}

/// Expressions are read, and no two of them have one yield.
pub fn exprs()
    ensures read { ExprsRead }
    ensures steady { ExprsSteady }
    ensures exact { ExprsExact }
    ensures one { OneExpr }
{}

/// So are statements, without their last `;`.
pub fn stmts()
    ensures read { StmtsRead }
    ensures steady { StmtsSteady }
    ensures exact { StmtsExact }
    ensures one { OneStmt }
{}

/// So are blocks.
pub fn blocks()
    ensures read { BlocksRead }
    ensures steady { BlocksSteady }
    ensures exact { BlocksExact }
    ensures one { OneBlock }
{}

/// So is what a block has between its braces.
pub fn bodies()
    ensures found { BodiesFound }
    ensures read { BodiesRead }
    ensures steady { BodiesSteady }
    ensures some { BodiesSome }
    ensures whole { BodiesWhole }
    ensures one { OneBody }
{}
