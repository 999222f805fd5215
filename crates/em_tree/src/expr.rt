use crate::literal::Literal;
use crate::parts::Listed;
use crate::pat::{Pat, TopPat};
use crate::piece::{Delimited, Group};
use crate::shared::Shared;
use crate::types::{Path, TypeTree};
use em_base::Token;
use sqlite_items::{Boxed, Items};

/// The type of a variable, or nothing.
#[derive(Drop)]
pub enum Annotation {
    Nothing,
    Type {
        colon: Shared<Token>,
        ty: Boxed<TypeTree>,
    },
}

/// A field of a struct expression (Reference, "Struct expressions").
#[derive(Drop)]
pub struct FieldExpr<E> {
    pub name: Shared<Token>,
    pub colon: Option<Shared<Token>>,
    pub value: Option<E>,
}

/// A parameter of a closure.
#[derive(Drop)]
pub struct ClosureParam {
    pub pat: Pat,
    pub annotation: Annotation,
    pub comma: Option<Shared<Token>>,
}

/// The parameters of a closure between their bars (Reference, "Closure expressions").
#[derive(Drop)]
pub enum ClosureHead {
    /// `||`.
    Empty(Shared<Token>),
    Bars {
        open: Shared<Token>,
        params: Items<ClosureParam>,
        close: Shared<Token>,
    },
}

/// The head of an `if` (Reference, "`if` expressions").
#[derive(Drop)]
pub enum Condition<E> {
    Expr(E),
    Let {
        word: Shared<Token>,
        pat: TopPat,
        equals: Shared<Token>,
        value: E,
    },
}

/// An arm of a `match` (Reference, "`match` expressions").
#[derive(Drop)]
pub struct Arm<E> {
    pub pat: TopPat,
    pub arrow: Shared<Token>,
    pub body: E,
    pub comma: Option<Shared<Token>>,
}

/// `&` and a variable.
#[derive(Drop)]
pub struct Reference {
    pub amp: Shared<Token>,
    pub name: Shared<Token>,
}

/// What the statement `let _ = ..;` mentions.
#[derive(Drop)]
pub enum Refs {
    One(Reference),
    Many {
        open: Shared<Token>,
        list: Items<Listed<Reference>>,
        close: Shared<Token>,
    },
}

/// A block (Reference, "Block expressions"). A fragment of the kind `block` is one too: `groups` has the fragments
/// that it came through, the outermost first.
#[derive(Drop)]
pub struct Block<B> {
    pub groups: Items<Group>,
    pub open: Shared<Token>,
    pub body: B,
    pub close: Shared<Token>,
}

/// A macro call.
#[derive(Drop)]
pub struct MacroCall {
    pub name: Shared<Token>,
    pub bang: Shared<Token>,
    pub text: Delimited,
}

/// A further branch of an `if`.
#[cycle(exprs)]
#[derive(Drop)]
pub struct ElseIf {
    pub word_else: Shared<Token>,
    pub word: Shared<Token>,
    pub condition: Condition<Boxed<Expr>>,
    pub then: Boxed<Block<Body>>,
}

/// An expression (Reference, "Expressions").
#[cycle(exprs)]
#[derive(Drop)]
pub enum Expr {
    Literal(Shared<Token>),
    Path(Path),
    Struct {
        path: Path,
        open: Shared<Token>,
        fields: Items<Listed<FieldExpr<Expr>>>,
        close: Shared<Token>,
    },
    Paren {
        open: Shared<Token>,
        inner: Boxed<Expr>,
        close: Shared<Token>,
    },
    Array {
        open: Shared<Token>,
        elements: Items<Listed<Expr>>,
        close: Shared<Token>,
    },
    Repeat {
        open: Shared<Token>,
        element: Boxed<Expr>,
        semi: Shared<Token>,
        length: Literal,
        close: Shared<Token>,
    },
    Block(Boxed<Block<Body>>),
    If {
        word: Shared<Token>,
        condition: Condition<Boxed<Expr>>,
        then: Boxed<Block<Body>>,
        branches: Items<ElseIf>,
        word_else: Option<Shared<Token>>,
        otherwise: Option<Boxed<Block<Body>>>,
    },
    Match {
        word: Shared<Token>,
        scrutinee: Boxed<Expr>,
        open: Shared<Token>,
        arms: Items<Arm<Expr>>,
        close: Shared<Token>,
    },
    While {
        word: Shared<Token>,
        condition: Boxed<Expr>,
        body: Boxed<Block<Body>>,
    },
    Loop {
        word: Shared<Token>,
        body: Boxed<Block<Body>>,
    },
    /// `for` over the values of one expression, or from one to before or up to another.
    For {
        word: Shared<Token>,
        pat: Boxed<Pat>,
        word_in: Shared<Token>,
        head: Boxed<Expr>,
        dots: Option<Shared<Token>>,
        end: Option<Boxed<Expr>>,
        body: Boxed<Block<Body>>,
    },
    Closure {
        word_move: Option<Shared<Token>>,
        head: ClosureHead,
        body: Boxed<Expr>,
    },
    /// A closure with a result type, whose body is a block.
    ClosureTo {
        word_move: Option<Shared<Token>>,
        head: ClosureHead,
        arrow: Shared<Token>,
        output: Boxed<TypeTree>,
        body: Boxed<Block<Body>>,
    },
    Macro(MacroCall),
    Return {
        word: Shared<Token>,
        value: Option<Boxed<Expr>>,
    },
    Break(Shared<Token>),
    Continue(Shared<Token>),
    MethodCall {
        receiver: Boxed<Expr>,
        dot: Shared<Token>,
        name: Shared<Token>,
        open: Shared<Token>,
        arguments: Items<Listed<Expr>>,
        close: Shared<Token>,
    },
    Call {
        callee: Boxed<Expr>,
        open: Shared<Token>,
        arguments: Items<Listed<Expr>>,
        close: Shared<Token>,
    },
    Field {
        base: Boxed<Expr>,
        dot: Shared<Token>,
        name: Shared<Token>,
    },
    /// The field of a tuple struct, by its number.
    Place {
        base: Boxed<Expr>,
        dot: Shared<Token>,
        number: Literal,
    },
    Index {
        base: Boxed<Expr>,
        open: Shared<Token>,
        index: Boxed<Expr>,
        close: Shared<Token>,
    },
    /// `-`, `!` or `*`.
    Unary {
        operator: Shared<Token>,
        operand: Boxed<Expr>,
    },
    Ref {
        amp: Shared<Token>,
        word_mut: Option<Shared<Token>>,
        operand: Boxed<Expr>,
    },
    /// `&&x`, two references of which the inner one may be `mut`.
    RefRef {
        amps: Shared<Token>,
        word_mut: Option<Shared<Token>>,
        operand: Boxed<Expr>,
    },
    Binary {
        left: Boxed<Expr>,
        operator: Shared<Token>,
        right: Boxed<Expr>,
    },
    /// `=`, or an operator and `=`.
    Assign {
        left: Boxed<Expr>,
        operator: Shared<Token>,
        right: Boxed<Expr>,
    },
    /// A fragment that is an expression: of the kinds `expr` and `literal`, and a tail of the kind `stmt`.
    Group {
        group: Group,
        inner: Boxed<Expr>,
    },
}

/// A statement (Reference, "Statements"). A fragment of the kind `stmt` lacks its last `;`.
#[cycle(exprs)]
#[derive(Drop)]
pub enum Stmt {
    /// `let _ = &x;` or `let _ = (&x, &y);`.
    Mention {
        word: Shared<Token>,
        underscore: Shared<Token>,
        equals: Shared<Token>,
        refs: Refs,
        semi: Option<Shared<Token>>,
    },
    Let {
        word: Shared<Token>,
        pat: Boxed<Pat>,
        annotation: Annotation,
        equals: Shared<Token>,
        value: Boxed<Expr>,
        semi: Option<Shared<Token>>,
    },
    Macro {
        call: MacroCall,
        semi: Option<Shared<Token>>,
    },
    Expr {
        value: Boxed<Expr>,
        semi: Option<Shared<Token>>,
    },
    /// A block, `if`, `match` or loop.
    BlockLike {
        value: Boxed<Expr>,
        semi: Option<Shared<Token>>,
    },
    Group {
        group: Group,
        inner: Boxed<Stmt>,
        semi: Option<Shared<Token>>,
    },
}

/// What a block has between its braces: statements, and maybe an expression at the end.
#[cycle(exprs)]
#[derive(Drop)]
pub struct Body {
    pub stmts: Items<Stmt>,
    pub tail: Option<Boxed<Expr>>,
}
