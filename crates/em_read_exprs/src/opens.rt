//! What the pieces of groups are that stand in a block.

ghost use Rattle.em_tree.specs.declared.expr.Block.{Block};
ghost use Rattle.em_tree.specs.declared.expr.Body.{Body};
ghost use Rattle.em_tree.specs.declared.expr.Expr.{Expr};
ghost use Rattle.em_tree.specs.declared.expr.Stmt.{Stmt};
ghost use Rattle.em_tree.specs.Starts.{Pieces};
ghost use Rattle.em_grammar.specs.Reader.{Read, entire};
ghost use Rattle.em_read.specs.Parse.{ReadsHere};

use em_read::Stop;
use em_tree::{Block, Body, Expr, Piece, Stmt};

/// Reads the pieces of groups that stand in a block.
pub trait Opens {
    ghost ready: { Self → Type 0 };

    ghost stmts: { Self → Pieces → Read Stmt };

    ghost tails: { Self → Pieces → Read Expr };

    ghost blocks: { Self → Pieces → Read (Block Body) };

    /// The statement that the pieces of a group are.
    fn opened_stmt(&self, pieces: &[Piece]) -> Result<Stmt, Stop>
        requires { ready self.now }
        ensures { ReadsHere (entire (stmts self.now pieces.now)) result };

    /// The tail that the pieces of a group of the kind `stmt` are.
    fn opened_tail(&self, pieces: &[Piece]) -> Result<Expr, Stop>
        requires { ready self.now }
        ensures { ReadsHere (entire (tails self.now pieces.now)) result };

    /// The block that the pieces of a group are.
    fn opened_block(&self, pieces: &[Piece]) -> Result<Block<Body>, Stop>
        requires { ready self.now }
        ensures { ReadsHere (entire (blocks self.now pieces.now)) result };
}
