use crate::fault::Fault;
use em_base::{Edition, List, NoMemory, Span, Token, Tokens};
use em_lex::{Lexings, lex};
use em_parse::parse_fragment;
use em_tree::{FragmentKind, Group, Piece};
use std::alloc::Global;
use std::mem;

/// What is asked of the parser.
#[derive(Clone, Copy, PartialEq, Eq)]
pub enum Call {
    File,
    Items,
    Body,
    /// The edition is that of the word that names the kind, where it isn't that of the text.
    Fragment {
        kind: FragmentKind,
        edition: Option<Edition>,
    },
}

/// A row of the table. Its words are a call, and text in which some words mean more:
///
/// - `@2015`, `@2018` or `@2021`: what follows is text of the edition.
/// - `@from`: the fragment begins here.
/// - `@KIND`: what follows, up to its word `@`, is put in as a fragment of the kind. Fragments may stand in one another.
/// - a number, `×` and a word: the word so often, be it one of these.
///
/// A call is `file`, `items`, `body`, or a kind, maybe with `/` and the edition of the word that names it.
#[derive(Drop)]
pub struct Row {
    pub call: Call,
    pub edition: Edition,
    pub tokens: Tokens,
    pub pieces: List<Piece>,
    pub from: usize,
    unclosed: Vec<Unclosed>,
    text: String,
}

/// A fragment whose end isn't read yet, and the pieces before it.
#[derive(Drop)]
struct Unclosed {
    kind: FragmentKind,
    before: List<Piece>,
}

fn edition_of(word: &str) -> Option<Edition> {
    match word {
        "2015" => Some(Edition::E2015),
        "2018" => Some(Edition::E2018),
        "2021" => Some(Edition::E2021),
        _ => None,
    }
}

fn kind_of(word: &str) -> Option<FragmentKind> {
    match word {
        "ident" => Some(FragmentKind::Ident),
        "tt" => Some(FragmentKind::Tt),
        "literal" => Some(FragmentKind::Literal),
        "block" => Some(FragmentKind::Block),
        "expr" => Some(FragmentKind::Expr),
        "stmt" => Some(FragmentKind::Stmt),
        "ty" => Some(FragmentKind::Ty),
        "path" => Some(FragmentKind::Path),
        "pat" => Some(FragmentKind::Pat),
        "pat_param" => Some(FragmentKind::PatParam),
        "item" => Some(FragmentKind::Item),
        _ => None,
    }
}

fn call_of(word: &str) -> Option<Call> {
    match word {
        "file" => Some(Call::File),
        "items" => Some(Call::Items),
        "body" => Some(Call::Body),
        _ => match word.split_once('/') {
            Some((kind, edition)) => Some(Call::Fragment {
                kind: kind_of(kind)?,
                edition: Some(edition_of(edition)?),
            }),
            None => Some(Call::Fragment {
                kind: kind_of(word)?,
                edition: None,
            }),
        },
    }
}

impl Row {
    pub fn read(alloc: Global, line: &str) -> Result<Row, Fault> {
        let mut words = line.split_whitespace();
        let call = match words.next() {
            Some(word) => call_of(word).ok_or(Fault::NoRow)?,
            None => return Err(Fault::NoRow),
        };
        let mut row = Row {
            call,
            edition: Edition::E2021,
            tokens: Tokens {
                list: List::new(alloc),
            },
            pieces: List::new(alloc),
            from: 0,
            unclosed: Vec::new(alloc),
            text: String::new(alloc),
        };
        for word in words {
            row.word(alloc, word)?;
        }
        row.end_text(alloc)?;
        if row.unclosed.is_empty() {
            Ok(row)
        } else {
            Err(Fault::NoRow)
        }
    }

    /// Reads a word, or one of the form `3×WORD` three times.
    fn word(&mut self, alloc: Global, word: &str) -> Result<(), Fault> {
        let (count, word) = match word.split_once('×') {
            Some((count, word)) => (count.parse::<u32>().unwrap_or(0), word),
            None => (1, word),
        };
        for _ in 0..count {
            match word.strip_prefix('@') {
                Some(mark) => self.mark(alloc, mark)?,
                None => self.put(word)?,
            }
        }
        Ok(())
    }

    /// Puts a word behind the text.
    fn put(&mut self, word: &str) -> Result<(), Fault> {
        self.text.push_str(word)?;
        self.text.push(' ')?;
        Ok(())
    }

    fn mark(&mut self, alloc: Global, mark: &str) -> Result<(), Fault> {
        self.end_text(alloc)?;
        if mark.is_empty() {
            return self.close(alloc);
        }
        if mark == "from" {
            self.from = self.pieces.len();
        } else if let Some(edition) = edition_of(mark) {
            self.edition = edition;
        } else {
            self.begin(alloc, kind_of(mark).ok_or(Fault::NoRow)?)?;
        }
        Ok(())
    }

    /// What follows stands in a fragment of the kind.
    fn begin(&mut self, alloc: Global, kind: FragmentKind) -> Result<(), NoMemory> {
        let before = mem::replace(&mut self.pieces, List::new(alloc));
        self.unclosed.push(Unclosed { kind, before })?;
        Ok(())
    }

    /// The tokens of the text so far are put behind the pieces.
    fn end_text(&mut self, alloc: Global) -> Result<(), Fault> {
        let tokens = lex(
            alloc,
            0,
            self.edition,
            self.text.as_bytes(),
            &mut Lexings::new(),
        )?;
        self.text = String::new(alloc);
        for token in tokens.list.as_slice() {
            self.pieces.push(Piece::Token(token.share(alloc)?))?;
        }
        for token in tokens.list.as_slice() {
            self.tokens.list.push(token.share(alloc)?)?;
        }
        Ok(())
    }

    /// The pieces of the last fragment that isn't closed become one.
    fn close(&mut self, alloc: Global) -> Result<(), Fault> {
        let Unclosed { kind, before } = self.unclosed.pop().ok_or(Fault::NoRow)?;
        let inside = mem::replace(&mut self.pieces, before);
        let Ok(fragment) = parse_fragment(alloc, kind, self.edition, &inside, 0) else {
            return Err(Fault::NoRow);
        };
        if fragment.taken < inside.len() {
            return Err(Fault::NoRow);
        }
        self.pieces.push(Piece::Group(Group {
            outer: Span {
                file: 0,
                start: 0,
                end: 0,
            },
            marks: List::new(alloc),
            kind,
            edition: self.edition,
            pieces: fragment.pieces.share()?,
        }))?;
        Ok(())
    }
}
