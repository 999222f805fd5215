use crate::{
    Annotation, Attribute, Block, Body, Condition, Delimited, Expr, FragmentKind, Group, Item,
    ItemBody, Listed, Literal, MacroCall, Meta, MetaInput, Node, Output, Pat, Path, PathStep,
    Piece, PieceList, Segment, Segments, Shared, Sig, Stmt, StructFields, TupleDecl, TypeTree, Vis,
    place_of, tokens_of,
};
use em_base::{Edition, List, Name, NoMemory, Span, Text, Token, TokenKind};
use sqlite_items::{Boxed, Items};
use std::alloc::Global;
use std::process::Abort;
use std::test::Fail;

/// The tokens of one file, made one after another. Between two of them lies nothing unless a blank is skipped.
#[derive(Drop)]
struct Source {
    alloc: Global,
    file: u32,
    at: u32,
}

impl Source {
    fn new(alloc: Global, file: u32, at: u32) -> Source {
        Source { alloc, file, at }
    }

    fn blank(&mut self) {
        self.at = self.at.saturating_add(1);
    }

    fn token(&mut self, kind: TokenKind, text: &str) -> Result<Token, NoMemory> {
        let start = self.at;
        self.at = start.saturating_add(u32::try_from(text.len()).unwrap_or(0));
        Ok(Token {
            kind,
            text: Text::from_str(self.alloc, text)?,
            span: Span {
                file: self.file,
                start,
                end: self.at,
            },
            edition: Edition::E2018,
            marks: List::new(self.alloc),
            doc: false,
        })
    }

    fn word(&mut self, text: &str) -> Result<Shared<Token>, NoMemory> {
        let kind = TokenKind::Ident {
            name: Name::normal(self.alloc, text)?,
            raw: false,
        };
        let token = self.token(kind, text)?;
        Shared::new(self.alloc, token)
    }

    fn sign(&mut self, text: &str) -> Result<Shared<Token>, NoMemory> {
        let token = self.token(TokenKind::Punct, text)?;
        Shared::new(self.alloc, token)
    }

    fn int(&mut self, text: &str, value: u64) -> Result<Shared<Token>, NoMemory> {
        let token = self.token(
            TokenKind::Int {
                value,
                suffix: None,
            },
            text,
        )?;
        Shared::new(self.alloc, token)
    }

    fn literal(&mut self, text: &str, value: u64) -> Result<Boxed<Expr>, NoMemory> {
        let token = self.int(text, value)?;
        Ok(Boxed::new(self.alloc, Expr::Literal(token))?)
    }

    fn name(&mut self, text: &str) -> Result<Path, NoMemory> {
        Ok(Path::Plain(Segments {
            lead: None,
            first: Segment {
                dollar: None,
                name: self.word(text)?,
            },
            more: Items::new(self.alloc),
        }))
    }

    fn variable(&mut self, text: &str) -> Result<Boxed<Expr>, NoMemory> {
        let path = self.name(text)?;
        Ok(Boxed::new(self.alloc, Expr::Path(path))?)
    }
}

/// The spellings of a tree's tokens with a blank after each, and its place as file, start and end.
fn read(alloc: Global, node: Node<'_>) -> Result<(String, (u32, u32, u32)), Fail> {
    let mut text = String::new(alloc);
    for token in tokens_of(alloc, node)?.as_slice() {
        text.push_str(token.text.as_str())?;
        text.push(' ')?;
    }
    let place = place_of(node);
    Ok((text, (place.file, place.start, place.end)))
}

/// `{}`.
fn empty_block(source: &mut Source) -> Result<Boxed<Block<Body>>, NoMemory> {
    let block = Block {
        groups: Items::new(source.alloc),
        open: source.sign("{")?,
        body: Body {
            stmts: Items::new(source.alloc),
            tail: None,
        },
        close: source.sign("}")?,
    };
    Ok(Boxed::new(source.alloc, block)?)
}

/// `fn a() {}`.
fn empty_function(source: &mut Source) -> Result<Item, NoMemory> {
    let word = source.word("fn")?;
    source.blank();
    let sig = Sig {
        word,
        name: source.word("a")?,
        open: source.sign("(")?,
        receiver: None,
        params: Items::new(source.alloc),
        close: source.sign(")")?,
        output: Output::Unit,
    };
    source.blank();
    Ok(Item::Plain {
        attributes: Items::new(source.alloc),
        vis: None,
        body: ItemBody::Fn {
            sig: Boxed::new(source.alloc, sig)?,
            body: empty_block(source)?,
        },
    })
}

#[test]
fn items(rt: HostRuntime) -> Result<(), Fail> {
    let alloc = rt.alloc();
    let function = empty_function(&mut Source::new(alloc, 0, 0))?;
    assert_eq!(rt; tokens_of(alloc, Node::Item(&function))?.len(), 6);
    let (text, place) = read(alloc, Node::Item(&function))?;
    assert_eq!(rt; text.as_str(), "fn a ( ) { } ");
    assert_eq!(rt; place, (0, 0, 9));

    // `#[inline] pub struct S(u8);` at 20
    let mut source = Source::new(alloc, 3, 20);
    let attribute = Attribute {
        hash: source.sign("#")?,
        open: source.sign("[")?,
        meta: Meta {
            name: source.word("inline")?,
            input: MetaInput::Nothing,
        },
        close: source.sign("]")?,
    };
    source.blank();
    let vis = Vis {
        word: source.word("pub")?,
        scope: None,
    };
    source.blank();
    let word = source.word("struct")?;
    source.blank();
    let name = source.word("S")?;
    let open = source.sign("(")?;
    let field = Listed {
        item: TupleDecl {
            vis: None,
            ty: TypeTree::Path(source.name("u8")?),
        },
        comma: None,
    };
    let mut attributes = Items::new(alloc);
    attributes.push(attribute)?;
    let mut fields = Items::new(alloc);
    fields.push(field)?;
    let structure = Item::Plain {
        attributes,
        vis: Some(vis),
        body: ItemBody::Struct {
            word,
            name,
            fields: StructFields::Tuple {
                open,
                fields,
                close: source.sign(")")?,
                semi: source.sign(";")?,
            },
        },
    };
    let (text, place) = read(alloc, Node::Item(&structure))?;
    assert_eq!(rt; text.as_str(), "# [ inline ] pub struct S ( u8 ) ; ");
    assert_eq!(rt; place, (3, 20, 47));
    Ok(())
}

#[test]
fn expressions_and_statements(rt: HostRuntime) -> Result<(), Fail> {
    let alloc = rt.alloc();
    // `a + b.f(7)`
    let mut source = Source::new(alloc, 0, 0);
    let left = source.variable("a")?;
    source.blank();
    let plus = source.sign("+")?;
    source.blank();
    let receiver = source.variable("b")?;
    let dot = source.sign(".")?;
    let name = source.word("f")?;
    let open = source.sign("(")?;
    let mut arguments = Items::new(alloc);
    arguments.push(Listed {
        item: Expr::Literal(source.int("7", 7)?),
        comma: None,
    })?;
    let call = Expr::MethodCall {
        receiver,
        dot,
        name,
        open,
        arguments,
        close: source.sign(")")?,
    };
    let (text, place) = read(alloc, Node::Expr(&call))?;
    assert_eq!(rt; text.as_str(), "b . f ( 7 ) ");
    assert_eq!(rt; place, (0, 4, 10));
    let sum = Expr::Binary {
        left,
        operator: plus,
        right: Boxed::new(alloc, call)?,
    };
    let (text, place) = read(alloc, Node::Expr(&sum))?;
    assert_eq!(rt; text.as_str(), "a + b . f ( 7 ) ");
    assert_eq!(rt; place, (0, 0, 10));

    // `if a {}` and `return`, which end in what may lack
    let mut source = Source::new(alloc, 0, 0);
    let word = source.word("if")?;
    source.blank();
    let condition = Condition::Expr(source.variable("a")?);
    source.blank();
    let choice = Expr::If {
        word,
        condition,
        then: empty_block(&mut source)?,
        branches: Items::new(alloc),
        word_else: None,
        otherwise: None,
    };
    let (text, place) = read(alloc, Node::Expr(&choice))?;
    assert_eq!(rt; text.as_str(), "if a { } ");
    assert_eq!(rt; place, (0, 0, 7));
    let back = Expr::Return {
        word: Source::new(alloc, 0, 5).word("return")?,
        value: None,
    };
    assert_eq!(rt; read(alloc, Node::Expr(&back))?.1, (0, 5, 11));

    // `let x =;`, with the sum above for its value
    let mut source = Source::new(alloc, 0, 40);
    let word = source.word("let")?;
    source.blank();
    let pat = Pat::Name {
        word_ref: None,
        word_mut: None,
        name: source.word("x")?,
    };
    source.blank();
    let statement = Stmt::Let {
        word,
        pat: Boxed::new(alloc, pat)?,
        annotation: Annotation::Nothing,
        equals: source.sign("=")?,
        value: Boxed::new(alloc, sum)?,
        semi: Some(source.sign(";")?),
    };
    let (text, place) = read(alloc, Node::Stmt(&statement))?;
    assert_eq!(rt; text.as_str(), "let x = a + b . f ( 7 ) ; ");
    assert_eq!(rt; place, (0, 40, 48));
    Ok(())
}

#[test]
fn paths_types_and_patterns(rt: HostRuntime) -> Result<(), Fail> {
    let alloc = rt.alloc();
    // `a::S`
    let mut source = Source::new(alloc, 1, 10);
    let first = Segment {
        dollar: None,
        name: source.word("a")?,
    };
    let mut more = Items::new(alloc);
    more.push(PathStep {
        separator: source.sign("::")?,
        segment: Segment {
            dollar: None,
            name: source.word("S")?,
        },
    })?;
    let path = Path::Plain(Segments {
        lead: None,
        first,
        more,
    });
    let (text, place) = read(alloc, Node::Path(&path))?;
    assert_eq!(rt; text.as_str(), "a :: S ");
    assert_eq!(rt; place, (1, 10, 14));

    // `Box<Box<u8>>`, whose inner `Box` has no closing token
    let mut source = Source::new(alloc, 0, 0);
    let word = source.word("Box")?;
    let open = source.sign("<")?;
    let inner = TypeTree::Boxed {
        word: source.word("Box")?,
        open: source.sign("<")?,
        inner: Boxed::new(alloc, TypeTree::Path(source.name("u8")?))?,
        close: None,
    };
    let (text, place) = read(alloc, Node::Ty(&inner))?;
    assert_eq!(rt; text.as_str(), "Box < u8 ");
    assert_eq!(rt; place, (0, 4, 10));
    let outer = TypeTree::Boxed {
        word,
        open,
        inner: Boxed::new(alloc, inner)?,
        close: Some(source.sign(">>")?),
    };
    let (text, place) = read(alloc, Node::Ty(&outer))?;
    assert_eq!(rt; text.as_str(), "Box < Box < u8 >> ");
    assert_eq!(rt; place, (0, 0, 12));

    // `-1..=5`
    let mut source = Source::new(alloc, 0, 0);
    let minus = source.sign("-")?;
    let one = Literal::Token(source.int("1", 1)?);
    let range = Pat::Range {
        start: Literal::Negative {
            minus,
            value: Boxed::new(alloc, one)?,
        },
        dots: source.sign("..=")?,
        end: Literal::Token(source.int("5", 5)?),
    };
    let (text, place) = read(alloc, Node::Pat(&range))?;
    assert_eq!(rt; text.as_str(), "- 1 ..= 5 ");
    assert_eq!(rt; place, (0, 0, 6));
    Ok(())
}

/// The fragment `1+1` of file 2, which a transcriber put in at 100 of a file.
fn sum_group(alloc: Global, file: u32) -> Result<Group, NoMemory> {
    let mut source = Source::new(alloc, 2, 50);
    let mut list = Items::new(alloc);
    for (text, value) in [("1", Some(1)), ("+", None), ("1", Some(1))] {
        let kind = match value {
            Some(value) => TokenKind::Int {
                value,
                suffix: None,
            },
            None => TokenKind::Punct,
        };
        list.push(Piece::Token(source.token(kind, text)?))?;
    }
    Ok(Group {
        outer: Span {
            file,
            start: 100,
            end: 102,
        },
        marks: List::new(alloc),
        kind: FragmentKind::Expr,
        edition: Edition::E2021,
        pieces: Shared::new(alloc, PieceList { list })?,
    })
}

/// The tree of that fragment.
fn sum_fragment(alloc: Global, file: u32) -> Result<Expr, NoMemory> {
    let mut source = Source::new(alloc, 2, 50);
    let left = source.literal("1", 1)?;
    let operator = source.sign("+")?;
    let right = source.literal("1", 1)?;
    let inner = Boxed::new(
        alloc,
        Expr::Binary {
            left,
            operator,
            right,
        },
    )?;
    let group = sum_group(alloc, file)?;
    Ok(Expr::Group { group, inner })
}

/// `2*$e` at a place of the file, where the fragment's own place is in the other file.
fn product(alloc: Global, at: u32, other: u32) -> Result<Expr, NoMemory> {
    let mut source = Source::new(alloc, 0, at);
    let left = source.literal("2", 2)?;
    let operator = source.sign("*")?;
    let right = Boxed::new(alloc, sum_fragment(alloc, other)?)?;
    Ok(Expr::Binary {
        left,
        operator,
        right,
    })
}

#[test]
fn fragments(rt: HostRuntime) -> Result<(), Fail> {
    let alloc = rt.alloc();
    let alone = sum_fragment(alloc, 0)?;
    let (text, place) = read(alloc, Node::Expr(&alone))?;
    assert_eq!(rt; text.as_str(), "1 + 1 ");
    assert_eq!(rt; place, (0, 100, 102));
    // the place reaches to the fragment's outer end; where that lies in another file or before the start, not
    for (at, other, want) in [
        (98, 0, (0, 98, 102)),
        (98, 7, (0, 98, 99)),
        (103, 0, (0, 103, 104)),
    ] {
        let tree = product(alloc, at, other)?;
        let (text, place) = read(alloc, Node::Expr(&tree))?;
        assert_eq!(rt; text.as_str(), "2 * 1 + 1 ");
        assert_eq!(rt; place, want);
    }
    // a macro's text is opened too: `m!($e)`
    let mut source = Source::new(alloc, 0, 0);
    let name = source.word("m")?;
    let bang = source.sign("!")?;
    let open = source.sign("(")?;
    let mut text = Items::new(alloc);
    text.push(Piece::Group(sum_group(alloc, 0)?))?;
    let call = Expr::Macro(MacroCall {
        name,
        bang,
        text: Delimited {
            open,
            text,
            close: source.sign(")")?,
        },
    });
    let (text, place) = read(alloc, Node::Expr(&call))?;
    assert_eq!(rt; text.as_str(), "m ! ( 1 + 1 ) ");
    assert_eq!(rt; place, (0, 0, 4));
    Ok(())
}
