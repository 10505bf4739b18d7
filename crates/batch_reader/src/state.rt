//! The state of the reader of charts.
use crate::firsts::Firsts;
use crate::frame::Frame;
use crate::lexeme::Lexeme;
use crate::want::Want;

/// The state of the reader: the token so far, the wanted one, the forms around it with the innermost last, and the noted offsets.
#[derive(Drop)]
pub struct State {
    pub lexeme: Lexeme,
    pub want: Want,
    pub stack: Vec<Frame>,
    pub firsts: Firsts,
}
