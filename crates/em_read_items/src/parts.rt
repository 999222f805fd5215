//! What an item is made of.

ghost use Rattle.std.specs.Prelude.{◌≡◌};
ghost use Rattle.em_tree.specs.declared.item.Item.{Item};
ghost use Rattle.em_tree.specs.Starts.{Pieces};
ghost use Rattle.em_grammar.specs.Reader.{Read, entire};
ghost use Rattle.em_grammar.specs.ItemReader.{Inner};
ghost use Rattle.em_read.specs.Parse.{Reads, ReadsHere};

use em_read::{Cursor, Stop};
use em_tree::{Block, Body, Item, Pat, Piece, TypeTree};

/// Reads what stands inside of an item.
pub trait Parts {
    ghost ready: { Self → Type 0 };

    ghost inner: { Self → Inner };

    ghost opens: { Self → Pieces → Read Item };

    /// How often groups may stand in one another.
    fn groups(&self) -> usize
        ensures { result ≡ (inner self.now).nested };

    fn ty(&self, input: &mut Cursor<'_>) -> Result<TypeTree, Stop>
        requires { ready self.now }
        ensures { Reads ((inner self.now).types input.old.rest.now) result input.new.rest.now };

    /// The type that an impl begins with.
    fn head(&self, input: &mut Cursor<'_>) -> Result<TypeTree, Stop>
        requires { ready self.now }
        ensures { Reads ((inner self.now).heads input.old.rest.now) result input.new.rest.now };

    fn pat(&self, input: &mut Cursor<'_>) -> Result<Pat, Stop>
        requires { ready self.now }
        ensures { Reads ((inner self.now).pats input.old.rest.now) result input.new.rest.now };

    fn block(&self, input: &mut Cursor<'_>) -> Result<Block<Body>, Stop>
        requires { ready self.now }
        ensures { Reads ((inner self.now).blocks input.old.rest.now) result input.new.rest.now };

    /// An item of a module.
    fn item(&self, input: &mut Cursor<'_>) -> Result<Item, Stop>
        requires { ready self.now }
        ensures { Reads ((inner self.now).items input.old.rest.now) result input.new.rest.now };

    /// The item that the pieces of a group are.
    fn opened(&self, pieces: &[Piece]) -> Result<Item, Stop>
        requires { ready self.now }
        ensures { ReadsHere (entire (opens self.now pieces.now)) result };
}
