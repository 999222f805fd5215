//! Types that all layers share: lists, texts, editions, words, names, places, tokens and suggestions.
#![tactic(auto)]

mod edit;
mod edition;
mod int_kind;
mod limit;
mod list;
mod memory;
mod name;
mod place;
mod slices;
mod text;
mod token;
mod words;

pub use edit::{Lint, Part, Suggestion};
pub use edition::Edition;
pub use int_kind::IntKind;
pub use limit::Limit;
pub use list::List;
pub use memory::NoMemory;
pub use name::{Name, is_name};
pub use place::{Mark, Place, Span};
pub use slices::{between, rest_from};
pub use text::{ByteText, Bytes, Text};
pub use token::{Token, TokenKind, Tokens};
pub use words::{Class, Word, find, is_integer_suffix, is_known_prefix, keyword_in};

#[cfg(test)]
mod tests;
