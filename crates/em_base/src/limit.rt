/// What a limit of the program counts.
#[derive(Clone, Copy, Debug, PartialEq, Eq)]
pub enum Limit {
    FileBytes,
    AllBytes,
    Files,
    Crates,
    Nesting,
    MacroDepth,
    Tokens,
    Findings,
}
