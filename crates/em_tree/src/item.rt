use crate::expr::{Block, Body, MacroCall};
use crate::literal::Literal;
use crate::parts::Listed;
use crate::pat::Pat;
use crate::piece::{Delimited, Group, Piece};
use crate::shared::Shared;
use crate::types::{Output, Path, Segments, TypeTree};
use em_base::Token;
use sqlite_items::{Boxed, Items};

/// What follows the name of an attribute (Reference, "Attributes").
#[derive(Drop)]
pub enum MetaInput {
    Nothing,
    List(Delimited),
    Value {
        equals: Shared<Token>,
        literal: Literal,
    },
}

/// What an attribute has between its brackets.
#[derive(Drop)]
pub struct Meta {
    pub name: Shared<Token>,
    pub input: MetaInput,
}

/// An attribute of an item: `#[..]`.
#[derive(Drop)]
pub struct Attribute {
    pub hash: Shared<Token>,
    pub open: Shared<Token>,
    pub meta: Meta,
    pub close: Shared<Token>,
}

/// An attribute of the file: `#![..]`.
#[derive(Drop)]
pub struct FileAttribute {
    pub hash: Shared<Token>,
    pub bang: Shared<Token>,
    pub open: Shared<Token>,
    pub meta: Meta,
    pub close: Shared<Token>,
}

/// The module that a visibility reaches: `(crate)`, `(self)` or `(super)`.
#[derive(Drop)]
pub struct VisScope {
    pub open: Shared<Token>,
    pub module: Shared<Token>,
    pub close: Shared<Token>,
}

/// A visibility (Reference, "Visibility and privacy").
#[derive(Drop)]
pub struct Vis {
    pub word: Shared<Token>,
    pub scope: Option<VisScope>,
}

/// The receiver of a method: `self`, `mut self`, `&self` or `&mut self`.
#[derive(Drop)]
pub struct SelfParam {
    pub amp: Option<Shared<Token>>,
    pub word_mut: Option<Shared<Token>>,
    pub word: Shared<Token>,
}

/// A parameter of a function (Reference, "Functions"). One of a trait may have no pattern.
#[derive(Drop)]
pub enum Param {
    Typed {
        pat: Pat,
        colon: Shared<Token>,
        ty: TypeTree,
    },
    Anonymous(TypeTree),
}

/// The head of a function.
#[derive(Drop)]
pub struct Sig {
    pub word: Shared<Token>,
    pub name: Shared<Token>,
    pub open: Shared<Token>,
    pub receiver: Option<Listed<SelfParam>>,
    pub params: Items<Listed<Param>>,
    pub close: Shared<Token>,
    pub output: Output,
}

/// What follows the head of a trait's function.
#[derive(Drop)]
pub enum TraitBody {
    Semi(Shared<Token>),
    Block(Boxed<Block<Body>>),
}

/// A function of a trait (Reference, "Traits").
#[derive(Drop)]
pub struct TraitFn {
    pub sig: Boxed<Sig>,
    pub body: TraitBody,
}

/// A function of an impl (Reference, "Implementations").
#[derive(Drop)]
pub struct ImplFn {
    pub vis: Option<Vis>,
    pub sig: Boxed<Sig>,
    pub body: Boxed<Block<Body>>,
}

/// The trait of an impl.
#[derive(Drop)]
pub struct ImplTrait {
    pub path: Boxed<Path>,
    pub word_for: Shared<Token>,
}

/// A field of a struct with braces.
#[derive(Drop)]
pub struct FieldDecl {
    pub vis: Option<Vis>,
    pub name: Shared<Token>,
    pub colon: Shared<Token>,
    pub ty: TypeTree,
}

/// A field of a struct with parentheses.
#[derive(Drop)]
pub struct TupleDecl {
    pub vis: Option<Vis>,
    pub ty: TypeTree,
}

/// What follows the name of a struct (Reference, "Structs").
#[derive(Drop)]
pub enum StructFields {
    Unit {
        semi: Shared<Token>,
    },
    Named {
        open: Shared<Token>,
        fields: Items<Listed<FieldDecl>>,
        close: Shared<Token>,
    },
    Tuple {
        open: Shared<Token>,
        fields: Items<Listed<TupleDecl>>,
        close: Shared<Token>,
        semi: Shared<Token>,
    },
}

/// A field of a variant with braces.
#[derive(Drop)]
pub struct VariantField {
    pub name: Shared<Token>,
    pub colon: Shared<Token>,
    pub ty: TypeTree,
}

/// What follows the name of a variant (Reference, "Enumerations").
#[derive(Drop)]
pub enum VariantFields {
    Unit,
    Tuple {
        open: Shared<Token>,
        fields: Items<Listed<TypeTree>>,
        close: Shared<Token>,
    },
    Named {
        open: Shared<Token>,
        fields: Items<Listed<VariantField>>,
        close: Shared<Token>,
    },
}

/// A variant of an enum.
#[derive(Drop)]
pub struct VariantDecl {
    pub name: Shared<Token>,
    pub fields: VariantFields,
}

/// `as` and the name that an import binds.
#[derive(Drop)]
pub struct Rename {
    pub word: Shared<Token>,
    pub name: Shared<Token>,
}

/// A name of an import with braces.
#[derive(Drop)]
pub struct UseName {
    pub name: Shared<Token>,
    pub rename: Option<Rename>,
}

/// An item without its attributes and its visibility (Reference, "Items"). `I` is the type of a module's items.
#[derive(Drop)]
pub enum ItemBody<I> {
    ExternCrate {
        word: Shared<Token>,
        word_crate: Shared<Token>,
        name: Shared<Token>,
        rename: Option<Rename>,
        semi: Shared<Token>,
    },
    Use {
        word: Shared<Token>,
        path: Segments,
        rename: Option<Rename>,
        semi: Shared<Token>,
    },
    UseList {
        word: Shared<Token>,
        path: Segments,
        separator: Shared<Token>,
        open: Shared<Token>,
        names: Items<Listed<UseName>>,
        close: Shared<Token>,
        semi: Shared<Token>,
    },
    ModFile {
        word: Shared<Token>,
        name: Shared<Token>,
        semi: Shared<Token>,
    },
    ModBlock {
        word: Shared<Token>,
        name: Shared<Token>,
        open: Shared<Token>,
        items: Items<I>,
        close: Shared<Token>,
    },
    Fn {
        sig: Boxed<Sig>,
        body: Boxed<Block<Body>>,
    },
    Struct {
        word: Shared<Token>,
        name: Shared<Token>,
        fields: StructFields,
    },
    Enum {
        word: Shared<Token>,
        name: Shared<Token>,
        open: Shared<Token>,
        variants: Items<Listed<VariantDecl>>,
        close: Shared<Token>,
    },
    Trait {
        word: Shared<Token>,
        name: Shared<Token>,
        open: Shared<Token>,
        functions: Items<TraitFn>,
        close: Shared<Token>,
    },
    Impl {
        word: Shared<Token>,
        of_trait: Option<ImplTrait>,
        self_type: Boxed<TypeTree>,
        open: Shared<Token>,
        functions: Items<ImplFn>,
        close: Shared<Token>,
    },
    Const {
        word: Shared<Token>,
        name: Shared<Token>,
        colon: Shared<Token>,
        ty: Boxed<TypeTree>,
        equals: Shared<Token>,
        value: Literal,
        semi: Shared<Token>,
    },
    Rules {
        word: Shared<Token>,
        bang: Shared<Token>,
        name: Shared<Token>,
        text: Delimited,
        semi: Option<Shared<Token>>,
    },
    Macro {
        call: MacroCall,
        semi: Option<Shared<Token>>,
    },
}

/// An item (Reference, "Items").
#[cycle(items)]
#[derive(Drop)]
pub enum Item {
    Plain {
        attributes: Items<Attribute>,
        vis: Option<Vis>,
        body: ItemBody<Item>,
    },
    Group {
        group: Group,
        inner: Boxed<Item>,
    },
}

/// A file (Reference, "Crates and source files").
#[derive(Drop)]
pub struct FileTree {
    pub attributes: Items<FileAttribute>,
    pub items: Items<Item>,
}
