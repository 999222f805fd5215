//! What the readers of pieces stand on: the cursor, lists, literals, paths and words.
#![tactic(auto)]

mod cursor;
mod list;
mod literal;
mod path;
mod spelled;
mod stop;
mod text;

pub use cursor::{Cursor, Want, keep, sign, sign_if, stands, token};
pub use list::{all_of, list_of, rows};
pub use literal::{Allowed, signed, unsigned};
pub use path::{plain_path, segments};
pub use spelled::is_spelled;
pub use stop::Stop;
pub use text::{Shape, Side, Unclosed, delimited};
