/// An edition of the language (Edition Guide, "What are editions?"), from the oldest to the newest.
#[derive(Clone, Copy, Debug, PartialEq, Eq)]
pub enum Edition {
    E2015,
    E2018,
    E2021,
}
