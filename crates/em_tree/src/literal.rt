use crate::piece::Group;
use crate::shared::Shared;
use em_base::Token;
use sqlite_items::Boxed;

/// A literal with or without a sign (Reference, "Literal expressions" and "Literal patterns").
#[cycle(literals)]
#[derive(Drop)]
pub enum Literal {
    Token(Shared<Token>),
    Negative {
        minus: Shared<Token>,
        value: Boxed<Literal>,
    },
    Group {
        group: Group,
        inner: Boxed<Literal>,
    },
}
