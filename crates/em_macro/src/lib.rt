//! Rules of macros: how their text is read, which arm a call matches, and what the arm writes (Reference, "Macros by
//! example").
#![tactic(auto)]

mod binding;
mod choosing;
mod copying;
mod deciding;
mod error;
mod fragments;
mod matched;
mod matching;
mod measuring;
mod put;
mod read_matcher;
mod read_transcriber;
mod reading;
mod rule_text;
mod rules;
mod signs;
mod starters;
mod starting;
#[cfg(test)]
mod tests;
mod tokens;

pub use choosing::{match_call, one_match};
pub use copying::transcribe;
pub use error::{CopyError, MacroError, RulesError};
pub use fragments::Fragments;
pub use matched::{Binding, Bound, Matched, Taken};
pub use measuring::copied_len;
pub use rule_text::read_rules;
pub use rules::{Arm, Matcher, Rules, Specifier, Transcriber};
