ghost use Rattle.std.specs.Prelude.{◌≤◌, drop, length};
ghost use Rattle.em_macro.specs.Match.{Reading, NeverEmpty, Starting};
ghost use Rattle.em_macro.specs.Given.{ReadsFragment};

use crate::matched::Taken;
use em_base::{Edition, List};
use em_tree::{FragError, FragmentKind, Piece};
use std::alloc::Global;

/// A reader of fragments. `reads` is what stands at the front of pieces, for a kind and the edition of the word that
/// names it: the longest prefix of the kind and what is left, or why there is none.
pub trait Fragments {
    ghost reads: { Reading };

    /// The fragment at an index of the pieces, which is at most their number.
    fn parse(
        &self,
        alloc: Global,
        kind: FragmentKind,
        edition: Edition,
        pieces: &List<Piece>,
        from: usize,
    ) -> Result<Taken, FragError>
        requires { from ≤ length pieces.now }
        ensures { ReadsFragment (reads (record { kind = kind; edition = edition }) (drop from pieces.now)) (drop from pieces.now) result };

    ghost never_empty: { NeverEmpty reads };

    ghost starting: { Starting reads };
}
