//! Which comments a record has.

/// Which comments a record has.
#[derive(Clone, Copy)]
pub struct Comments {
    /// Each line that is answered, before its answer.
    pub echo: bool,
    /// The time of each read that brought a line with an answer, before the first of these answers.
    pub times: bool,
}
