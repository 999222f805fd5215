use crate::shared::Shared;
use em_base::Token;

/// An item of a list, and the comma after it.
#[derive(Drop)]
pub struct Listed<T> {
    pub item: T,
    pub comma: Option<Shared<Token>>,
}
