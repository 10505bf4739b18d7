//! The comparison with an expected text. A comparison is proved anew wherever it is made, so it is made here.
use std::process::Abort;
use std::test::Fail;

/// Checks that the text is the one expected.
pub(crate) fn assert_text(
    rt: &impl Abort,
    told: Result<String, Fail>,
    expected: &str,
) -> Result<(), Fail> {
    assert_eq!(rt; told?.as_str(), expected);
    Ok(())
}

/// Checks that no row of a table is wrong.
pub(crate) fn assert_none(
    rt: &impl Abort,
    first_wrong: Result<Option<usize>, Fail>,
) -> Result<(), Fail> {
    assert_eq!(rt; first_wrong?, None);
    Ok(())
}

/// Checks that it is so.
pub(crate) fn assert_so(rt: &impl Abort, is_so: Result<bool, Fail>) -> Result<(), Fail> {
    assert!(rt; is_so?);
    Ok(())
}
