//! What stands inside of a pattern.

ghost use Rattle.std.specs.Prelude.{ℕ};
ghost use Rattle.em_tree.specs.declared.types.Path.{Path};
ghost use Rattle.em_tree.specs.declared.pat.Pat.{Pat};
ghost use Rattle.em_tree.specs.Starts.{Pieces};
ghost use Rattle.em_grammar.specs.Reader.{Read, entire};
ghost use Rattle.em_grammar.specs.LiteralReader.{signed_in};
ghost use Rattle.em_read.specs.Parse.{Reads, ReadsHere};

use em_read::{Cursor, Stop};
use em_tree::{Literal, Pat, Path, Piece};

/// Reads what stands inside of a pattern.
pub trait PatInside {
    ghost ready: { Self → Type 0 };

    ghost inner: { Self → Pieces → Read Pat };

    ghost paths: { Self → Pieces → Read Path };

    ghost opens: { Self → Pieces → Read Pat };

    ghost number: { Self → ℕ };

    /// A pattern one node deeper.
    fn pat(&self, input: &mut Cursor<'_>) -> Result<Pat, Stop>
        requires { ready self.now }
        ensures { Reads (inner self.now input.old.rest.now) result input.new.rest.now };

    fn path(&self, input: &mut Cursor<'_>) -> Result<Path, Stop>
        requires { ready self.now }
        ensures { Reads (paths self.now input.old.rest.now) result input.new.rest.now };

    /// A literal with or without a sign.
    fn literal(&self, input: &mut Cursor<'_>) -> Result<Literal, Stop>
        requires { ready self.now }
        ensures { Reads (signed_in (number self.now) input.old.rest.now) result input.new.rest.now };

    /// The pattern that the pieces of a group are.
    fn opened(&self, pieces: &[Piece]) -> Result<Pat, Stop>
        requires { ready self.now }
        ensures { ReadsHere (entire (opens self.now pieces.now)) result };
}
