ghost use Rattle.std.specs.Prelude.{◌≡◌, ◌<◌, true, [], ◌++◌, List, ℕ, length, slice_get, slice_index_or, Some, Contains, IfSome, IfNone};
ghost use Rattle.std.specs.List.{list_all};
ghost use Rattle.std.specs.Ordering.{nat_cmp};
ghost use Rattle.std.specs.Cmp.Lexicographic.{slice_cmp};
ghost use Rattle.em_base.specs.Words.{texts, is_ascending, is_among, always, from_2018, prefixes, integer_suffixes, class_of, is_listed, year};

use crate::edition::Edition;
use crate::name::Name;
use std::cmp::Ordering;

/// What a word is in an edition (Reference, "Keywords"). A weak keyword is one in some places alone.
#[derive(Clone, Copy, Debug, PartialEq, Eq)]
pub enum Class {
    Ident,
    Weak,
    Keyword,
}

/// A word of a table, with the edition that it means something from.
#[derive(Clone, Copy, Debug)]
pub struct Word {
    pub text: &'static str,
    pub since: Edition,
}

macro_rules! words {
    ($($text:literal $since:ident),* $(,)?) => {
        [$(Word { text: $text, since: Edition::$since }),*]
    };
}

/// The index of the text in a table with ascending texts, or `None` exactly where it isn't there. Takes no memory.
pub fn find(table: &[Word], text: &str) -> Option<usize>
    requires { is_ascending (texts table.now) ≡ true }
    ensures found { IfSome result (λ i. slice_get (texts table.now) i ≡ Some text.now) }
    ensures absent { IfNone result (¬ (Contains (texts table.now) text.now)) }
{
    let mut low = 0;
    let mut high = table.len();
    'halves: while low < high {
        let middle = low + (high - low) / 2;
        match order_at(table, middle, text) {
            Ordering::Equal => return Some(middle),
            Ordering::Less => low = middle + 1,
            Ordering::Greater => high = middle,
        }
    }
    None
}

/// How the text at an index of the table compares to another.
fn order_at(table: &[Word], index: usize, text: &str) -> Ordering
    requires { index < length table.now }
    ensures { result ≡ slice_cmp nat_cmp (slice_index_or (texts table.now) index []) text.now }
{
    table[index].text.cmp(&text)
}

/// Whether the text is in the table.
fn has(table: &[Word], text: &str) -> bool
    requires { is_ascending (texts table.now) ≡ true }
    ensures { result ≡ is_among (texts table.now) text.now }
{
    find(table, text).is_some()
}

/// The keywords, each with the edition that it is one from.
fn keywords() -> [Word; 51]
    ensures ascending { is_ascending (texts result) ≡ true }
    ensures listed { list_all is_listed result ≡ true }
    ensures whole { list_all (is_among (texts result)) (always ++ from_2018) ≡ true }
{
    words!(
        "Self" E2015, "abstract" E2015, "as" E2015, "async" E2018, "await" E2018, "become" E2015,
        "box" E2015, "break" E2015, "const" E2015, "continue" E2015, "crate" E2015, "do" E2015,
        "dyn" E2018, "else" E2015, "enum" E2015, "extern" E2015, "false" E2015, "final" E2015,
        "fn" E2015, "for" E2015, "if" E2015, "impl" E2015, "in" E2015, "let" E2015, "loop" E2015,
        "macro" E2015, "match" E2015, "mod" E2015, "move" E2015, "mut" E2015, "override" E2015,
        "priv" E2015, "pub" E2015, "ref" E2015, "return" E2015, "self" E2015, "static" E2015,
        "struct" E2015, "super" E2015, "trait" E2015, "true" E2015, "try" E2018, "type" E2015,
        "typeof" E2015, "unsafe" E2015, "unsized" E2015, "use" E2015, "virtual" E2015,
        "where" E2015, "while" E2015, "yield" E2015,
    )
}

/// The prefixes of literals that every edition has.
fn known_prefixes() -> [Word; 3]
    ensures ascending { is_ascending (texts result) ≡ true }
    ensures within { list_all (is_among prefixes) (texts result) ≡ true }
    ensures whole { list_all (is_among (texts result)) prefixes ≡ true }
{
    words!("b" E2015, "br" E2015, "r" E2015)
}

/// The suffixes of integer literals.
fn suffixes() -> [Word; 10]
    ensures ascending { is_ascending (texts result) ≡ true }
    ensures within { list_all (is_among integer_suffixes) (texts result) ≡ true }
    ensures whole { list_all (is_among (texts result)) integer_suffixes ≡ true }
{
    words!(
        "i16" E2015, "i32" E2015, "i64" E2015, "i8" E2015, "isize" E2015, "u16" E2015, "u32" E2015,
        "u64" E2015, "u8" E2015, "usize" E2015,
    )
}

/// Whether the text is a prefix that a literal may have in every edition: `b`, `r` or `br` (Reference, "Reserved
/// prefixes"). Takes no memory.
pub fn is_known_prefix(text: &str) -> bool
    ensures { result ≡ is_among prefixes text.now }
{
    has(&known_prefixes(), text)
}

/// Whether the text is the suffix of an integer literal (Reference, "Integer literals"). Takes no memory.
pub fn is_integer_suffix(text: &str) -> bool
    ensures { result ≡ is_among integer_suffixes text.now }
{
    has(&suffixes(), text)
}

/// The class of the name in the edition (Reference, "Keywords"). Takes no memory.
pub fn keyword_in(edition: Edition, name: &Name) -> Class
    ensures { result ≡ class_of edition name.now }
{
    let table = keywords();
    match find(&table, name.as_str()) {
        None => Class::Ident,
        Some(index) => class_at(edition, table[index]),
    }
}

/// The class of a word of the table of keywords.
fn class_at(edition: Edition, word: Word) -> Class
    requires { is_listed word ≡ true }
    ensures { result ≡ class_of edition word.text.now }
{
    if year(word.since) <= year(edition) {
        Class::Keyword
    } else if word.text == "dyn" {
        Class::Weak
    } else {
        Class::Ident
    }
}

fn year(edition: Edition) -> u16
    ensures { result ≡ year edition }
{
    match edition {
        Edition::E2015 => 2015,
        Edition::E2018 => 2018,
        Edition::E2021 => 2021,
    }
}
