//! Programs of the first form: their statements, what they print, and what the edition 2018 finds in them.
#![tactic(auto)]

mod findings;
mod form;
mod laws;
mod words;

pub use findings::keyword_findings;
pub use form::is_first_form;
pub use laws::{
    a_sample, core_is_kept, core_is_one, edited_text_lexes, events_are_kept, findings_fit,
    nothing_is_left, programs_are_files,
};

#[cfg(test)]
mod tests;
