ghost use Rattle.std.specs.Prelude.{◌≡◌, IfOk};

use em_base::{Edition, Name, NoMemory};
use em_tree::{FragmentKind, PieceList, Shared};
use sqlite_items::Items;

/// A fragment that a matcher read: its kind, the edition of the word that named the kind, and its pieces, which aren't
/// copied. Its tree is that of the pieces.
#[derive(Drop)]
pub struct Taken {
    pub kind: FragmentKind,
    pub edition: Edition,
    pub pieces: Shared<PieceList>,
}

impl Taken {
    /// The same fragment, whose pieces aren't copied.
    pub fn share(&self) -> Result<Taken, NoMemory>
        ensures { IfOk result (λ t. t ≡ self.now) }
    {
        Ok(Taken {
            kind: self.kind,
            edition: self.edition,
            pieces: self.pieces.share()?,
        })
    }
}

/// What a variable is bound to: a fragment, or what each copy of a repetition bound it to.
#[derive(Drop)]
pub enum Bound {
    One(Taken),
    Many(Shared<Items<Bound>>),
}

/// A variable of a matcher, and what it is bound to.
#[derive(Drop)]
pub struct Binding {
    pub name: Name,
    pub bound: Bound,
}

/// The arm that a call chose, its variables in the matcher's order, and the fragments that earlier arms read, in the
/// order of arms and pieces.
#[derive(Drop)]
pub struct Matched {
    pub arm: u32,
    pub bindings: Items<Binding>,
    pub tried: Items<Taken>,
}
