//! The lexer of the editions 2015, 2018 and 2021.
#![tactic(auto)]

mod characters;
mod counter;
mod error;
mod laws;
mod lexer;
mod literal;
mod mark;
mod number;
mod piece;
mod scan;
#[cfg(test)]
mod tests;
mod texts;
mod trivia;
mod unit;
mod word;

pub use counter::Lexings;
pub use error::{LexError, LexKind};
pub use laws::{
    fault_is_one, lexing_is_one, list_excludes_fault, list_or_fault, marked_text_lexes,
    tokens_lie_in_text,
};
pub use lexer::lex;
