//! Statements (Reference, "Statements").

ghost use Rattle.std.specs.Prelude.{◌≡◌, false, None, IfOk, IfErr};
ghost use Rattle.em_read.specs.declared.stop.Stop.TheVariants as Refusal;
ghost use Rattle.em_tree.specs.declared.pat.Pat.{out-Pat};
ghost use Rattle.em_tree.specs.declared.expr.Annotation.TheVariants as made_annotation;
ghost use Rattle.em_tree.specs.declared.expr.Stmt.TheVariants as made;
ghost use Rattle.em_grammar.specs.declared.sort.Written.TheVariants as word;
ghost use Rattle.em_grammar.specs.Sets.{is_sign};
ghost use Rattle.em_grammar.specs.Sorts.{sort_of};
ghost use Rattle.em_grammar.specs.Reader.{mapped, seq};
ghost use Rattle.em_grammar.specs.Reader as read;
ghost use Rattle.em_grammar.specs.ExprSets.{Anywhere, InBlock};
ghost use Rattle.em_grammar.specs.StmtReader as spec;
ghost use Rattle.em_read.specs.Parse.{Reads};
ghost use Rattle.em_read.specs.Gives.{Gives};
ghost use Rattle.em_read_exprs.specs.Lets.{end_as};

use crate::blank::is_blank;
use crate::inside::{Inside, Start};
use crate::shape::is_block;
use em_base::Token;
use em_grammar::{Written, is_name, is_sign};
use em_read::{Cursor, Stop, Want, delimited, keep, list_of, sign, stands, token};
use em_tree::{
    Annotation, Expr, Listed, MacroCall, Pat, Piece, Reference, Refs, Shared, Stmt, TypeTree,
};
use sqlite_items::{Boxed, Items};
use std::alloc::Global;

// ---- what `let _ = ..;` mentions

fn is_referent(token: &Token) -> bool
    ensures { result ≡ spec.referent (sort_of token.now) }
{
    is_name(token) || is_sign(Written::SelfValue, token)
}

/// A name or `self`.
fn referent(alloc: Global, input: &mut Cursor<'_>) -> Result<Shared<Token>, Stop>
    ensures { Reads (read.token (λ t. spec.referent (sort_of t)) input.old.rest.now) result input.new.rest.now }
{
    match input.rest {
        [Piece::Token(token), rest @ ..] if is_referent(token) => {
            let found = keep(alloc, token)?;
            input.rest = rest;
            Ok(found)
        }
        _ => Err(Stop::Absent),
    }
}

fn reference(alloc: Global, input: &mut Cursor<'_>) -> Result<Reference, Stop>
    ensures { Reads (spec.reference input.old.rest.now) result input.new.rest.now }
{
    let amp = sign(alloc, input, Written::And)?;
    let name = referent(alloc, input)?;
    Ok(Reference { amp, name })
}

fn reference_list(alloc: Global, input: &mut Cursor<'_>) -> Result<Items<Listed<Reference>>, Stop>
    ensures { Reads (read.list_of spec.reference input.old.rest.now) result input.new.rest.now }
{
    list_of(alloc, input, |input| reference(alloc, input))
}

fn references(alloc: Global, input: &mut Cursor<'_>) -> Result<Refs, Stop>
    ensures { Reads (spec.refs_in input.old.rest.now) result input.new.rest.now }
{
    if stands(input, Written::And) {
        let one = reference(alloc, input)?;
        return Ok(Refs::One(one));
    }
    let open = sign(alloc, input, Written::OpenParen)?;
    let list = reference_list(alloc, input)?;
    let close = sign(alloc, input, Written::CloseParen)?;
    Ok(Refs::Many { open, list, close })
}

// ---- `let`

/// What stands behind the pattern of a `let`.
#[derive(Drop)]
pub enum LetEnd {
    Valued {
        annotation: Annotation,
        equals: Shared<Token>,
        value: Boxed<Expr>,
    },
    Mentions {
        equals: Shared<Token>,
        refs: Refs,
    },
}

/// The `=` and the value.
fn assigned<I: Inside>(
    alloc: Global,
    inside: &I,
    input: &mut Cursor<'_>,
) -> Result<(Shared<Token>, Boxed<Expr>), Stop>
    requires { I.ready inside.now }
    ensures { Reads (seq (read.token (is_sign word.Eq)) ((I.readers inside.now).inner Anywhere 0 false) input.old.rest.now) result input.new.rest.now }
{
    let equals = sign(alloc, input, Written::Eq)?;
    let value = inside.expr(input, Start::Anywhere, 0, false)?;
    let value = Boxed::new(alloc, value)?;
    Ok((equals, value))
}

fn annotated(alloc: Global, colon: Shared<Token>, ty: TypeTree) -> Result<Annotation, Stop>
    ensures is { IfOk result (λ a. a ≡ made_annotation.Type colon ty) }
    ensures fails { IfErr result (λ e. e ≡ Refusal.NoMemory) }
{
    let ty = Boxed::new(alloc, ty)?;
    Ok(Annotation::Type { colon, ty })
}

fn typed_end<I: Inside>(alloc: Global, inside: &I, input: &mut Cursor<'_>) -> Result<LetEnd, Stop>
    requires { I.ready inside.now }
    ensures { Gives end_as (mapped spec.Typed (seq (read.token (is_sign word.Colon)) (seq (I.readers inside.now).ty (seq (read.token (is_sign word.Eq)) ((I.readers inside.now).inner Anywhere 0 false)))) input.old.rest.now) result input.new.rest.now }
{
    let colon = sign(alloc, input, Written::Colon)?;
    let ty = inside.ty(input)?;
    let annotation = annotated(alloc, colon, ty)?;
    let (equals, value) = assigned(alloc, inside, input)?;
    Ok(LetEnd::Valued {
        annotation,
        equals,
        value,
    })
}

fn plain_end<I: Inside>(alloc: Global, inside: &I, input: &mut Cursor<'_>) -> Result<LetEnd, Stop>
    requires { I.ready inside.now }
    ensures { Gives end_as (mapped spec.Plain (seq (read.token (is_sign word.Eq)) ((I.readers inside.now).inner Anywhere 0 false)) input.old.rest.now) result input.new.rest.now }
{
    let (equals, value) = assigned(alloc, inside, input)?;
    Ok(LetEnd::Valued {
        annotation: Annotation::Nothing,
        equals,
        value,
    })
}

fn mentions_end(alloc: Global, input: &mut Cursor<'_>) -> Result<LetEnd, Stop>
    ensures { Gives end_as (mapped spec.Mentions (seq (read.token (is_sign word.Eq)) spec.refs_in) input.old.rest.now) result input.new.rest.now }
{
    let equals = sign(alloc, input, Written::Eq)?;
    let refs = references(alloc, input)?;
    Ok(LetEnd::Mentions { equals, refs })
}

#[tactic(auto, using(crate::proofs::Lets::is_wild))]
fn is_wild(pat: &Pat) -> bool
    ensures { result ≡ spec.is_wild pat.now }
{
    matches!(pat, Pat::Wild(_))
}

/// What stands behind this pattern.
fn let_end<I: Inside>(
    alloc: Global,
    inside: &I,
    input: &mut Cursor<'_>,
    pat: &Pat,
) -> Result<LetEnd, Stop>
    requires { I.ready inside.now }
    ensures { Gives end_as (spec.let_end (I.readers inside.now) pat.now input.old.rest.now) result input.new.rest.now }
{
    if stands(input, Written::Colon) {
        return typed_end(alloc, inside, input);
    }
    if is_wild(pat) {
        return mentions_end(alloc, input);
    }
    if is_blank(pat) {
        return Err(Stop::Absent);
    }
    plain_end(alloc, inside, input)
}

/// The `_` that the pattern is, or else the token.
#[tactic(auto, using(crate::proofs::Lets::wild_token))]
fn underscore_of(word: &Shared<Token>, pat: &Pat) -> Result<Shared<Token>, Stop>
    ensures is { IfOk result (λ t. t ≡ spec.wild_token word.now (out-Pat pat.now)) }
    ensures fails { IfErr result (λ e. e ≡ Refusal.NoMemory) }
{
    match pat {
        Pat::Wild(underscore) => Ok(underscore.share()?),
        _ => Ok(word.share()?),
    }
}

/// The statement of these parts, where the pattern is a `_`.
fn let_mention(
    word: Shared<Token>,
    pat: &Pat,
    equals: Shared<Token>,
    refs: Refs,
) -> Result<Stmt, Stop>
    ensures is { IfOk result (λ y. y ≡ made.Mention word (spec.wild_token word (out-Pat pat.now)) equals refs None) }
    ensures fails { IfErr result (λ e. e ≡ Refusal.NoMemory) }
{
    let underscore = underscore_of(&word, pat)?;
    Ok(Stmt::Mention {
        word,
        underscore,
        equals,
        refs,
        semi: None,
    })
}

#[tactic(auto, using(crate::proofs::Lets::valued))]
fn let_of(word: Shared<Token>, pat: Boxed<Pat>, end: LetEnd) -> Result<Stmt, Stop>
    ensures is { IfOk result (λ y. y ≡ spec.let_of ((word, pat), end_as end)) }
    ensures fails { IfErr result (λ e. e ≡ Refusal.NoMemory) }
{
    match end {
        LetEnd::Valued {
            annotation,
            equals,
            value,
        } => Ok(Stmt::Let {
            word,
            pat,
            annotation,
            equals,
            value,
            semi: None,
        }),
        LetEnd::Mentions { equals, refs } => let_mention(word, pat.get(), equals, refs),
    }
}

/// A `let` without its `;` (Reference, "`let` statements").
pub fn let_stmt<I: Inside>(alloc: Global, inside: &I, input: &mut Cursor<'_>) -> Result<Stmt, Stop>
    requires { I.ready inside.now }
    ensures { Reads (spec.let' (I.readers inside.now) input.old.rest.now) result input.new.rest.now }
{
    let word = sign(alloc, input, Written::Let)?;
    let pat = inside.pat(input)?;
    let pat = Boxed::new(alloc, pat)?;
    let end = let_end(alloc, inside, input, pat.get())?;
    let stmt = let_of(word, pat, end)?;
    Ok(stmt)
}

// ---- expressions as statements

/// The statement that an expression is (Reference, "Expression statements").
pub fn statement_of(alloc: Global, expr: Expr) -> Result<Stmt, Stop>
    ensures is { IfOk result (λ y. y ≡ spec.statement_of expr) }
    ensures fails { IfErr result (λ e. e ≡ Refusal.NoMemory) }
{
    match expr {
        Expr::Macro(call) => Ok(Stmt::Macro { call, semi: None }),
        expr => {
            let is_block = is_block(&expr);
            let value = Boxed::new(alloc, expr)?;
            if is_block {
                Ok(Stmt::BlockLike { value, semi: None })
            } else {
                Ok(Stmt::Expr { value, semi: None })
            }
        }
    }
}

/// An expression as a statement, without its `;`.
pub fn expr_stmt<I: Inside>(alloc: Global, inside: &I, input: &mut Cursor<'_>) -> Result<Stmt, Stop>
    requires { I.ready inside.now }
    ensures { Reads (mapped spec.statement_of ((I.readers inside.now).inner InBlock 0 false) input.old.rest.now) result input.new.rest.now }
{
    let value = inside.expr(input, Start::InBlock, 0, false)?;
    statement_of(alloc, value)
}

/// A statement without its `;` that is no fragment.
#[tactic(auto, unfolding(em_grammar::specs::StmtReader::plain_stmt))]
pub fn plain_stmt<I: Inside>(
    alloc: Global,
    inside: &I,
    input: &mut Cursor<'_>,
) -> Result<Stmt, Stop>
    requires { I.ready inside.now }
    ensures { Reads (spec.plain_stmt (I.readers inside.now) input.old.rest.now) result input.new.rest.now }
{
    if stands(input, Written::Let) {
        return let_stmt(alloc, inside, input);
    }
    expr_stmt(alloc, inside, input)
}

/// A macro call that is a whole operand.
pub fn macro_call(alloc: Global, input: &mut Cursor<'_>) -> Result<MacroCall, Stop>
    ensures { Reads (spec.macro_call input.old.rest.now) result input.new.rest.now }
{
    let name = token(alloc, input, Want::Name)?;
    let bang = sign(alloc, input, Written::Not)?;
    let text = delimited(alloc, input)?;
    Ok(MacroCall { name, bang, text })
}
