//! Scripts that are answered line by line, and the answers as one text.
use std::alloc::Global;
use std::test::Fail;

/// Answers the lines of a script, with something beside it to which the lines refer too.
pub(crate) trait Teller<B> {
    /// The answer to a line.
    fn answer(&mut self, alloc: Global, beside: &mut B, line: &str) -> Result<String, Fail>;
}

/// Appends a text to the one before.
pub(crate) fn put(told: &mut String, text: Result<String, Fail>) -> Result<(), Fail> {
    told.push_str(text?.as_str())?;
    Ok(())
}

/// The text before, and the answer to each line.
pub(crate) fn answers_after<B, T: Teller<B>>(
    alloc: Global,
    teller: &mut T,
    beside: &mut B,
    script: &str,
    before: Result<String, Fail>,
) -> Result<String, Fail> {
    let mut told = before?;
    for line in script.lines() {
        put(&mut told, teller.answer(alloc, beside, line))?;
    }
    Ok(told)
}

/// The answer to each line.
pub(crate) fn answers<B, T: Teller<B>>(
    alloc: Global,
    teller: &mut T,
    beside: &mut B,
    script: &str,
) -> Result<String, Fail> {
    answers_after(alloc, teller, beside, script, Ok(String::new(alloc)))
}
