//! Syntax trees, the grammar that they have, their tokens and their places.
//!
//! Each production of the grammar is a variant or a struct, with its parts in order as fields and its punctuation kept,
//! so that the tokens of a tree are those that it was read from.
#![tactic(auto)]

mod expanded;
mod expr;
mod first;
mod fragment;
mod item;
mod item_place;
mod last;
mod laws;
mod literal;
mod node;
mod parts;
mod pat;
mod piece;
mod put;
mod put_expr;
mod put_item;
mod put_parts;
mod put_pat;
mod put_type;
mod shared;
mod start_sets;
#[cfg(test)]
mod tests;
mod types;
mod writer;

pub use expanded::{CallRecord, CrateTree, Expanded};
pub use expr::{
    Annotation, Arm, Block, Body, ClosureHead, ClosureParam, Condition, ElseIf, Expr, FieldExpr,
    MacroCall, Reference, Refs, Stmt,
};
pub use fragment::{FragError, Fragment, FragmentNode, TokenTree};
pub use item::{
    Attribute, FieldDecl, FileAttribute, FileTree, ImplFn, ImplTrait, Item, ItemBody, Meta,
    MetaInput, Param, Rename, SelfParam, Sig, StructFields, TraitBody, TraitFn, TupleDecl, UseName,
    VariantDecl, VariantField, VariantFields, Vis, VisScope,
};
pub use laws::{
    block_has_body, empty_file_is_one, empty_function_is_item, product_binds_before_sum,
    tokens_are_opened_pieces, word_is_fragment,
};
pub use literal::Literal;
pub use node::{Node, place_of, tokens_of};
pub use parts::Listed;
pub use pat::{Alternative, FieldPat, Pat, TopPat};
pub use piece::{Delimited, FragmentKind, Group, Piece, PieceList};
pub use shared::Shared;
pub use start_sets::{spelling, starts, starts_token};
pub use types::{Bound, Output, Path, PathStep, Qualified, Segment, Segments, TypeTree};
