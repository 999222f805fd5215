//! Paths, struct expressions and macro calls (Reference, "Path expressions", "Struct expressions" and "Macro invocation").

ghost use Rattle.std.specs.Prelude.{false, ◌≡◌, IfOk, IfErr};
ghost use Rattle.std.specs.Option.{option_map};
ghost use Rattle.em_grammar.specs.declared.sort.Written.TheVariants as word;
ghost use Rattle.em_grammar.specs.Sets.{is_sign};
ghost use Rattle.em_grammar.specs.Reader as read;
ghost use Rattle.em_grammar.specs.TextReader.{delimited};
ghost use Rattle.em_grammar.specs.TypeReader.{alone};
ghost use Rattle.em_grammar.specs.ExprSets as from;
ghost use Rattle.em_grammar.specs.PrefixReader as spec;
ghost use Rattle.em_read.specs.Parse.{Reads};
ghost use Rattle.em_read_exprs.specs.Exprs.{given, Named};
ghost use Rattle.em_read.specs.declared.stop.Stop.TheVariants as Refusal;

use crate::inside::{Inside, Start};
use em_base::Token;
use em_grammar::{Written, is_name};
use em_read::{Cursor, Stop, Want, delimited, list_of, sign, stands, token};
use em_tree::{Delimited, Expr, FieldExpr, Listed, MacroCall, Path, Segment, Segments, Shared};
use sqlite_items::Items;
use std::alloc::Global;

/// `:` and the value of a field.
fn field_value<I: Inside>(
    alloc: Global,
    inside: &I,
    input: &mut Cursor<'_>,
) -> Result<(Shared<Token>, Expr), Stop>
    requires { I.ready inside.now }
    ensures { Reads (read.seq (read.token (is_sign word.Colon)) ((I.readers inside.now).inner from.Anywhere 0 false) input.old.rest.now) result input.new.rest.now }
{
    let colon = sign(alloc, input, Written::Colon)?;
    let value = inside.expr(input, Start::Anywhere, 0, false)?;
    Ok((colon, value))
}

fn field_value_if<I: Inside>(
    alloc: Global,
    inside: &I,
    input: &mut Cursor<'_>,
) -> Result<Option<(Shared<Token>, Expr)>, Stop>
    requires { I.ready inside.now }
    ensures { Reads (read.opt (read.seq (read.token (is_sign word.Colon)) ((I.readers inside.now).inner from.Anywhere 0 false)) input.old.rest.now) result input.new.rest.now }
{
    let start = input.rest;
    match field_value(alloc, inside, input) {
        Ok(found) => Ok(Some(found)),
        Err(Stop::Absent) => {
            input.rest = start;
            Ok(None)
        }
        Err(stop) => Err(stop),
    }
}

fn field_expr<I: Inside>(
    alloc: Global,
    inside: &I,
    input: &mut Cursor<'_>,
) -> Result<FieldExpr<Expr>, Stop>
    requires { I.ready inside.now }
    ensures { Reads (spec.field_expr (I.readers inside.now) input.old.rest.now) result input.new.rest.now }
{
    let name = token(alloc, input, Want::Name)?;
    match field_value_if(alloc, inside, input)? {
        Some((colon, value)) => Ok(FieldExpr {
            name,
            colon: Some(colon),
            value: Some(value),
        }),
        None => Ok(FieldExpr {
            name,
            colon: None,
            value: None,
        }),
    }
}

fn fields<I: Inside>(
    alloc: Global,
    inside: &I,
    input: &mut Cursor<'_>,
) -> Result<Items<Listed<FieldExpr<Expr>>>, Stop>
    requires { I.ready inside.now }
    ensures { Reads (read.list_of (spec.field_expr (I.readers inside.now)) input.old.rest.now) result input.new.rest.now }
{
    list_of(alloc, input, |input| field_expr(alloc, inside, input))
}

/// The token of a path that is one token.
#[tactic(auto, unfolding(em_grammar::specs::TypeReader::alone))]
fn alone(path: &Path) -> Option<&Shared<Token>>
    ensures { option_map (λ t. t.now) result ≡ alone path.now }
{
    let Path::Plain(
        Segments {
            lead: None,
            first: Segment { dollar: None, name },
            more,
        },
    ) = path
    else {
        return None;
    };
    match more.as_slice() {
        [] => Some(name),
        _ => None,
    }
}

/// The name of the macro that a path calls, where the path is a name.
fn macro_name(path: &Path) -> Result<Option<Shared<Token>>, Stop>
    ensures named { IfOk result (λ name. Named path.now name) }
    ensures fails { IfErr result (λ e. e ≡ Refusal.NoMemory) }
{
    match alone(path) {
        Some(name) if is_name(name.get()) => Ok(Some(name.share()?)),
        _ => Ok(None),
    }
}

/// `!` and the text of a macro call.
fn macro_text(alloc: Global, input: &mut Cursor<'_>) -> Result<(Shared<Token>, Delimited), Stop>
    ensures { Reads (read.seq (read.token (is_sign word.Not)) delimited input.old.rest.now) result input.new.rest.now }
{
    let bang = sign(alloc, input, Written::Not)?;
    let text = delimited(alloc, input)?;
    Ok((bang, text))
}

/// A macro call, whose path is read, or that path.
fn macro_or_path(alloc: Global, input: &mut Cursor<'_>, path: Path) -> Result<Expr, Stop>
    ensures { Reads (read.mapped spec.behind_of (read.seq (given path) (read.opt (read.when (spec.is_named path) (read.mapped spec.Call (read.seq (read.token (is_sign word.Not)) delimited))))) input.old.rest.now) result input.new.rest.now }
{
    let Some(name) = macro_name(&path)? else {
        return Ok(Expr::Path(path));
    };
    let start = input.rest;
    match macro_text(alloc, input) {
        Ok((bang, text)) => Ok(Expr::Macro(MacroCall { name, bang, text })),
        Err(Stop::Absent) => {
            input.rest = start;
            Ok(Expr::Path(path))
        }
        Err(stop) => Err(stop),
    }
}

/// The fields of a struct expression with their braces.
fn braces<I: Inside>(
    alloc: Global,
    inside: &I,
    input: &mut Cursor<'_>,
) -> Result<
    (
        Shared<Token>,
        (Items<Listed<FieldExpr<Expr>>>, Shared<Token>),
    ),
    Stop,
>
    requires { I.ready inside.now }
    ensures { Reads (read.seq (read.token (is_sign word.OpenBrace)) (read.seq (read.list_of (spec.field_expr (I.readers inside.now))) (read.token (is_sign word.CloseBrace))) input.old.rest.now) result input.new.rest.now }
{
    let start = sign(alloc, input, Written::OpenBrace)?;
    let fields = fields(alloc, inside, input)?;
    let close = sign(alloc, input, Written::CloseBrace)?;
    Ok((start, (fields, close)))
}

/// A struct expression, whose path is read, or that path.
fn struct_or_path<I: Inside>(
    alloc: Global,
    inside: &I,
    input: &mut Cursor<'_>,
    path: Path,
) -> Result<Expr, Stop>
    requires { I.ready inside.now }
    ensures { Reads (read.mapped spec.behind_of (read.seq (given path) (read.opt (read.mapped spec.Fields (read.seq (read.token (is_sign word.OpenBrace)) (read.seq (read.list_of (spec.field_expr (I.readers inside.now))) (read.token (is_sign word.CloseBrace))))))) input.old.rest.now) result input.new.rest.now }
{
    let start = input.rest;
    match braces(alloc, inside, input) {
        Ok((open, (fields, close))) => Ok(Expr::Struct {
            path,
            open,
            fields,
            close,
        }),
        Err(Stop::Absent) => {
            input.rest = start;
            Ok(Expr::Path(path))
        }
        Err(stop) => Err(stop),
    }
}

/// A path, a struct expression or a macro call.
pub fn path_form<I: Inside>(
    alloc: Global,
    inside: &I,
    input: &mut Cursor<'_>,
    no_struct: bool,
) -> Result<Expr, Stop>
    requires { I.ready inside.now }
    ensures { Reads (spec.path_form (I.readers inside.now) no_struct input.old.rest.now) result input.new.rest.now }
{
    let path = inside.path(input)?;
    if stands(input, Written::Not) {
        return macro_or_path(alloc, input, path);
    }
    if no_struct {
        return Ok(Expr::Path(path));
    }
    struct_or_path(alloc, inside, input, path)
}
