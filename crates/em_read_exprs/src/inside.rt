//! What stands inside of an expression.

ghost use Rattle.em_grammar.specs.Reader.{entire};
ghost use Rattle.em_grammar.specs.ExprReader.{Readers};
ghost use Rattle.em_read.specs.Parse.{Reads, ReadsHere};
ghost use Rattle.em_read_exprs.specs.Exprs.{start_of};

use em_read::{Cursor, Stop};
use em_tree::{Block, Body, Expr, Literal, Pat, Path, Piece, TopPat, TypeTree};

/// Where an expression begins.
#[derive(Clone, Copy, PartialEq, Eq)]
pub enum Start {
    Anywhere,
    /// As the body of an arm.
    InArm,
    /// As a statement.
    InBlock,
}

/// Reads what stands inside of an expression, one node deeper.
pub trait Inside {
    ghost ready: { Self → Type 0 };

    ghost readers: { Self → Readers };

    fn ty(&self, input: &mut Cursor<'_>) -> Result<TypeTree, Stop>
        requires { ready self.now }
        ensures { Reads ((readers self.now).ty input.old.rest.now) result input.new.rest.now };

    fn path(&self, input: &mut Cursor<'_>) -> Result<Path, Stop>
        requires { ready self.now }
        ensures { Reads ((readers self.now).path input.old.rest.now) result input.new.rest.now };

    /// A pattern without alternatives.
    fn pat(&self, input: &mut Cursor<'_>) -> Result<Pat, Stop>
        requires { ready self.now }
        ensures { Reads ((readers self.now).pat input.old.rest.now) result input.new.rest.now };

    fn top_pat(&self, input: &mut Cursor<'_>) -> Result<TopPat, Stop>
        requires { ready self.now }
        ensures { Reads ((readers self.now).top input.old.rest.now) result input.new.rest.now };

    /// An integer literal.
    fn int(&self, input: &mut Cursor<'_>) -> Result<Literal, Stop>
        requires { ready self.now }
        ensures { Reads ((readers self.now).int input.old.rest.now) result input.new.rest.now };

    fn block(&self, input: &mut Cursor<'_>) -> Result<Block<Body>, Stop>
        requires { ready self.now }
        ensures { Reads ((readers self.now).block input.old.rest.now) result input.new.rest.now };

    /// An expression whose operators bind at least so tightly.
    fn expr(
        &self,
        input: &mut Cursor<'_>,
        start: Start,
        least: usize,
        no_struct: bool,
    ) -> Result<Expr, Stop>
        requires { ready self.now }
        ensures { Reads ((readers self.now).inner (start_of start) least no_struct input.old.rest.now) result input.new.rest.now };

    /// The expression that the pieces of a group are.
    fn opened(&self, pieces: &[Piece]) -> Result<Expr, Stop>
        requires { ready self.now }
        ensures { ReadsHere (entire ((readers self.now).opened pieces.now)) result };

    /// The literal that the pieces of a group are.
    fn signed(&self, pieces: &[Piece]) -> Result<Literal, Stop>
        requires { ready self.now }
        ensures { ReadsHere (entire ((readers self.now).signed pieces.now)) result };
}
