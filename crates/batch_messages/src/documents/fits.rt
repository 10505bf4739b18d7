//! The forms of values, in words.
use batch_reader::{MAX_CHART_LEN, ValueForm};
use batch_text::{MAX_NAME_LEN, is_name};
use std::alloc::{AllocError, Global};
use toml::Value;

/// The form without the demands that have sentences of their own: a chart is a text, and any name a name.
fn plain(form: ValueForm) -> ValueForm {
    match form {
        ValueForm::FreeName => ValueForm::Name,
        ValueForm::Chart | ValueForm::ChartWithoutPar => ValueForm::Text(MAX_CHART_LEN),
        ValueForm::Least(most) => ValueForm::Number(0, most),
        other => other,
    }
}

/// Describes the values of this form.
pub(crate) fn form_said(alloc: Global, form: ValueForm) -> Result<String, AllocError> {
    match plain(form) {
        ValueForm::Name => format!(in alloc;
            "a name: 1 to {MAX_NAME_LEN} letters, digits, `_` and `-`, the first of them a letter"
        ),
        ValueForm::Text(most) => format!(in alloc; "a text of at most {most} bytes"),
        ValueForm::Path(most) => format!(in alloc; "a path: a text of 1 to {most} bytes"),
        ValueForm::Number(least, most) => {
            format!(in alloc; "a whole number of {least} to {most}")
        }
        ValueForm::Truth => String::from_str(alloc, "true or false"),
        ValueForm::Names(least, most) => format!(in alloc; "a list of {least} to {most} names"),
        ValueForm::Needs(most) => {
            format!(in alloc; "a list of at most {most} needs, as \"STEAM\" or \"STEAM*2\"")
        }
        _ => String::from_str(alloc, "tables"),
    }
}

/// Names the fault of a value in place of one of this form, if it is known.
pub(crate) fn given_said(
    alloc: Global,
    form: ValueForm,
    value: &Value,
) -> Result<String, AllocError> {
    match (plain(form), value) {
        (ValueForm::Name, Value::String(text)) => format!(in alloc; ", and `{text}` is none"),
        (ValueForm::Names(_, _), Value::Array(items)) => item_said(alloc, items),
        (ValueForm::Number(_, _), Value::Float(_)) => {
            String::from_str(
                alloc,
                "; numbers are whole, so that 4.5 is written as 45 tenths",
            )
        }
        (ValueForm::Number(_, _), Value::String(_)) => {
            String::from_str(alloc, "; a number stands without quotes")
        }
        (ValueForm::Truth, Value::String(_)) => {
            String::from_str(alloc, "; true and false stand without quotes")
        }
        (
            ValueForm::Name | ValueForm::Text(_) | ValueForm::Path(_),
            Value::Integer(_) | Value::Float(_) | Value::Boolean(_),
        ) => String::from_str(alloc, "; a text stands in quotes"),
        _ => Ok(String::new(alloc)),
    }
}

/// The first text of the list that is no name.
fn item_said(alloc: Global, items: &[Value]) -> Result<String, AllocError> {
    let mut texts = items.iter().filter_map(Value::as_str);
    match texts.find(|text| !is_name(text.as_bytes())) {
        Some(text) => format!(in alloc; ", and `{text}` is no name"),
        None => Ok(String::new(alloc)),
    }
}
