//! The tokens of patterns.

ghost use Rattle.std.specs.Prelude.{◌≡◌, [], ◌∷◌, ◌++◌, OnOk};
ghost use Rattle.em_tree.specs.Parts.{alternative_parts, each, field_pat_parts, listed_parts, pat_parts, top_pat_parts};
ghost use Rattle.em_tree.specs.Yields.{one, inside, opened, opened_piece};

use crate::parts::Listed;
use crate::pat::{Alternative, FieldPat, Pat, TopPat};
use crate::put::{put, put_if};
use crate::put_type::{put_literal, put_path};
use em_base::{List, NoMemory, Token};
use std::alloc::Global;

macro_rules! puts {
    ($alloc:ident, $out:ident: $($put:ident($part:expr)),+ $(,)?) => {{
        $($put($alloc, $out, $part)?;)+
        Ok(())
    }};
}

#[cycle(pats)]
#[tactic(auto, using(crate::proofs::Puts::puts_pat_wild, crate::proofs::Puts::puts_pat_name, crate::proofs::Puts::puts_pat_literal, crate::proofs::Puts::puts_pat_range, crate::proofs::Puts::puts_pat_path, crate::proofs::Puts::puts_pat_tuple, crate::proofs::Puts::puts_pat_struct, crate::proofs::Puts::puts_pat_group))]
pub(crate) fn put_pat(alloc: Global, out: &mut List<Token>, node: &Pat) -> Result<(), NoMemory>
    ensures { OnOk result (out.new ≡ out.old ++ pat_parts one inside opened node.now) }
{
    match node {
        Pat::Wild(part) => puts!(alloc, out: put(part.get())),
        Pat::Name {
            word_ref,
            word_mut,
            name,
        } => puts!(alloc, out: put_if(word_ref), put_if(word_mut), put(name.get())),
        Pat::Literal(part) => puts!(alloc, out: put_literal(part)),
        Pat::Range { start, dots, end } =>
            puts!(alloc, out: put_literal(start), put(dots.get()), put_literal(end)),
        Pat::Path(part) => puts!(alloc, out: put_path(part)),
        Pat::Tuple {
            path,
            open,
            fields,
            close,
        } =>
            puts!(alloc, out: put_path(path), put(open.get()), put_pats(fields.as_slice()), put(close.get())),
        Pat::Struct {
            path,
            open,
            fields,
            rest,
            close,
        } =>
            puts!(alloc, out: put_path(path), put(open.get()), put_field_pats(fields.as_slice()), put_if(rest), put(close.get())),
        Pat::Group { inner, .. } => puts!(alloc, out: put_pat(inner.get())),
    }
}

#[cycle(pats)]
pub(crate) fn put_pats(
    alloc: Global,
    out: &mut List<Token>,
    list: &[Listed<Pat>],
) -> Result<(), NoMemory>
    ensures { OnOk result (out.new ≡ out.old ++ each (listed_parts one inside opened (pat_parts one inside opened)) list.now) }
{
    for part in list {
        put_pat(alloc, out, &part.item)?;
        put_if(alloc, out, &part.comma)?;
    }
    Ok(())
}

#[cycle(pats)]
pub(crate) fn put_field_pats(
    alloc: Global,
    out: &mut List<Token>,
    list: &[Listed<FieldPat<Pat>>],
) -> Result<(), NoMemory>
    ensures { OnOk result (out.new ≡ out.old ++ each (listed_parts one inside opened (field_pat_parts one inside opened (pat_parts one inside opened))) list.now) }
{
    for part in list {
        match &part.item {
            FieldPat::Full { name, colon, pat } => {
                put(alloc, out, name.get())?;
                put(alloc, out, colon.get())?;
                put_pat(alloc, out, pat)?;
            }
            FieldPat::Short {
                word_ref,
                word_mut,
                name,
            } => {
                put_if(alloc, out, word_ref)?;
                put_if(alloc, out, word_mut)?;
                put(alloc, out, name.get())?;
            }
        }
        put_if(alloc, out, &part.comma)?;
    }
    Ok(())
}

#[tactic(auto, using(crate::proofs::Join::put2))]
pub(crate) fn put_alternative(
    alloc: Global,
    out: &mut List<Token>,
    node: &Alternative,
) -> Result<(), NoMemory>
    ensures { OnOk result (out.new ≡ out.old ++ alternative_parts one inside opened node.now) }
{
    puts!(alloc, out: put_if(&node.bar), put_pat(&node.pat))
}

pub(crate) fn put_alternatives(
    alloc: Global,
    out: &mut List<Token>,
    list: &[Alternative],
) -> Result<(), NoMemory>
    ensures { OnOk result (out.new ≡ out.old ++ each (alternative_parts one inside opened) list.now) }
{
    for part in list {
        put_alternative(alloc, out, part)?;
    }
    Ok(())
}

#[cycle(top_pats)]
#[tactic(auto, using(crate::proofs::Puts::puts_top_pat_alternatives, crate::proofs::Puts::puts_top_pat_group))]
pub(crate) fn put_top_pat(
    alloc: Global,
    out: &mut List<Token>,
    node: &TopPat,
) -> Result<(), NoMemory>
    ensures { OnOk result (out.new ≡ out.old ++ top_pat_parts one inside opened node.now) }
{
    match node {
        TopPat::Alternatives(part) => puts!(alloc, out: put_alternatives(part.as_slice())),
        TopPat::Group { inner, .. } => puts!(alloc, out: put_top_pat(inner.get())),
    }
}
