//! Laws of the record's text. Nothing runs here: the contracts are the laws.
ghost use Rattle.batch_record.specs.Laws.{LinesTellOuts, TextIsAsTold, TextIsOne};

/// Two outs whose names are names, and whose texts are the same, are one but for the parts that a text leaves out.
// claim: one text
pub fn text_is_one()
    ensures { TextIsOne }
{}

/// An out without the parts that its text leaves out has the same text.
// claim: one text
pub fn text_is_as_told()
    ensures { TextIsAsTold }
{}

/// The out that is read from a line is the one whose text the line is; a line from which none is read is the text of none.
// claim: read by definition
pub fn lines_tell_outs()
    ensures { LinesTellOuts }
{}
