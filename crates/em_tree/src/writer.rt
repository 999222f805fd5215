//! A list of tokens under way, to which the parts of expressions, statements and items are added.

ghost use Rattle.std.specs.Prelude.{◌≡◌, [], ◌∷◌, ◌++◌, true, false, OnOk};
ghost use Rattle.em_tree.specs.Parts.{annotation_parts, closure_head_parts, delimited_parts, literal_parts, macro_call_parts, maybe, output_parts, pat_parts, path_parts, refs_parts, segments_parts, top_pat_parts, type_tree_parts};
ghost use Rattle.em_tree.specs.Yields.{one, inside, opened};
ghost use Rattle.em_tree.specs.Adding.{Adds};

use crate::expr::{Annotation, ClosureHead, MacroCall, Refs};
use crate::literal::Literal;
use crate::pat::{Pat, TopPat};
use crate::piece::Delimited;
use crate::put::{put, put_if};
use crate::put_parts::{put_annotation, put_closure_head, put_delimited, put_macro_call, put_refs};
use crate::put_pat::{put_pat, put_top_pat};
use crate::put_type::{put_literal, put_output, put_path, put_segments, put_type};
use crate::shared::Shared;
use crate::types::{Output, Path, Segments, TypeTree};
use em_base::{List, NoMemory, Token};
use std::alloc::Global;

/// Tokens that are put one after another. Once memory lacks, `failed` says so and nothing more is put.
#[derive(Drop)]
pub(crate) struct Writer {
    pub alloc: Global,
    pub list: List<Token>,
    pub failed: bool,
}

impl Writer {
    pub(crate) fn token(&mut self, part: &Token)
        ensures { Adds self.old (one part.now) self.new }
    {
        if self.failed {
            return;
        }
        if put(self.alloc, &mut self.list, part).is_err() {
            self.failed = true;
        }
    }

    pub(crate) fn token_if(&mut self, part: &Option<Shared<Token>>)
        ensures { Adds self.old (maybe one part.now) self.new }
    {
        if self.failed {
            return;
        }
        if put_if(self.alloc, &mut self.list, part).is_err() {
            self.failed = true;
        }
    }

    pub(crate) fn path(&mut self, part: &Path)
        ensures { Adds self.old (path_parts one inside opened part.now) self.new }
    {
        if self.failed {
            return;
        }
        if put_path(self.alloc, &mut self.list, part).is_err() {
            self.failed = true;
        }
    }

    pub(crate) fn ty(&mut self, part: &TypeTree)
        ensures { Adds self.old (type_tree_parts one inside opened part.now) self.new }
    {
        if self.failed {
            return;
        }
        if put_type(self.alloc, &mut self.list, part).is_err() {
            self.failed = true;
        }
    }

    pub(crate) fn pat(&mut self, part: &Pat)
        ensures { Adds self.old (pat_parts one inside opened part.now) self.new }
    {
        if self.failed {
            return;
        }
        if put_pat(self.alloc, &mut self.list, part).is_err() {
            self.failed = true;
        }
    }

    pub(crate) fn top_pat(&mut self, part: &TopPat)
        ensures { Adds self.old (top_pat_parts one inside opened part.now) self.new }
    {
        if self.failed {
            return;
        }
        if put_top_pat(self.alloc, &mut self.list, part).is_err() {
            self.failed = true;
        }
    }

    pub(crate) fn literal(&mut self, part: &Literal)
        ensures { Adds self.old (literal_parts one inside opened part.now) self.new }
    {
        if self.failed {
            return;
        }
        if put_literal(self.alloc, &mut self.list, part).is_err() {
            self.failed = true;
        }
    }

    pub(crate) fn closure_head(&mut self, part: &ClosureHead)
        ensures { Adds self.old (closure_head_parts one inside opened part.now) self.new }
    {
        if self.failed {
            return;
        }
        if put_closure_head(self.alloc, &mut self.list, part).is_err() {
            self.failed = true;
        }
    }

    pub(crate) fn macro_call(&mut self, part: &MacroCall)
        ensures { Adds self.old (macro_call_parts one inside opened part.now) self.new }
    {
        if self.failed {
            return;
        }
        if put_macro_call(self.alloc, &mut self.list, part).is_err() {
            self.failed = true;
        }
    }

    pub(crate) fn refs(&mut self, part: &Refs)
        ensures { Adds self.old (refs_parts one inside opened part.now) self.new }
    {
        if self.failed {
            return;
        }
        if put_refs(self.alloc, &mut self.list, part).is_err() {
            self.failed = true;
        }
    }

    pub(crate) fn annotation(&mut self, part: &Annotation)
        ensures { Adds self.old (annotation_parts one inside opened part.now) self.new }
    {
        if self.failed {
            return;
        }
        if put_annotation(self.alloc, &mut self.list, part).is_err() {
            self.failed = true;
        }
    }

    pub(crate) fn segments(&mut self, part: &Segments)
        ensures { Adds self.old (segments_parts one inside opened part.now) self.new }
    {
        if self.failed {
            return;
        }
        if put_segments(self.alloc, &mut self.list, part).is_err() {
            self.failed = true;
        }
    }

    pub(crate) fn output(&mut self, part: &Output)
        ensures { Adds self.old (output_parts one inside opened part.now) self.new }
    {
        if self.failed {
            return;
        }
        if put_output(self.alloc, &mut self.list, part).is_err() {
            self.failed = true;
        }
    }

    pub(crate) fn delimited(&mut self, part: &Delimited)
        ensures { Adds self.old (delimited_parts one inside opened part.now) self.new }
    {
        if self.failed {
            return;
        }
        if put_delimited(self.alloc, &mut self.list, part).is_err() {
            self.failed = true;
        }
    }
}
