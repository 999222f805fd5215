//! What stands inside of a type.

ghost use Rattle.std.specs.Prelude.{ℕ, Bool};
ghost use Rattle.em_tree.specs.declared.types.Path.{Path};
ghost use Rattle.em_tree.specs.declared.types.TypeTree.{TypeTree};
ghost use Rattle.em_tree.specs.Starts.{Pieces};
ghost use Rattle.em_grammar.specs.Reader.{Read, entire};
ghost use Rattle.em_grammar.specs.LiteralReader.{int_in};
ghost use Rattle.em_read.specs.Parse.{Reads, ReadsHere};

use em_read::{Cursor, Stop};
use em_tree::{Literal, Path, Piece, TypeTree};

/// Reads what stands inside of a type. Where `may` is set, a type may owe the `>` that a `>>` behind it closes; what is
/// read tells whether it does.
pub trait TypeInside {
    ghost ready: { Self → Type 0 };

    ghost inner: { Self → Bool → Pieces → Read (TypeTree × Bool) };

    ghost deeper: { Self → Bool → Pieces → Read (TypeTree × Bool) };

    ghost paths: { Self → Pieces → Read Path };

    ghost opens: { Self → Pieces → Read TypeTree };

    ghost number: { Self → ℕ };

    /// A type one node deeper.
    fn ty(&self, input: &mut Cursor<'_>, may: bool) -> Result<(TypeTree, bool), Stop>
        requires { ready self.now }
        ensures { Reads (inner self.now may input.old.rest.now) result input.new.rest.now };

    /// A type two nodes deeper.
    fn deeper_ty(&self, input: &mut Cursor<'_>, may: bool) -> Result<(TypeTree, bool), Stop>
        requires { ready self.now }
        ensures { Reads (deeper self.now may input.old.rest.now) result input.new.rest.now };

    fn path(&self, input: &mut Cursor<'_>) -> Result<Path, Stop>
        requires { ready self.now }
        ensures { Reads (paths self.now input.old.rest.now) result input.new.rest.now };

    /// An integer literal.
    fn int(&self, input: &mut Cursor<'_>) -> Result<Literal, Stop>
        requires { ready self.now }
        ensures { Reads (int_in (number self.now) input.old.rest.now) result input.new.rest.now };

    /// The type that the pieces of a group are.
    fn opened(&self, pieces: &[Piece]) -> Result<TypeTree, Stop>
        requires { ready self.now }
        ensures { ReadsHere (entire (opens self.now pieces.now)) result };
}
