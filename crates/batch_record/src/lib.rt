//! Reading records: the out of each line, the state of the plant at the end, and the picture of who held which resource when.
#![tactic(auto)]

mod axis;
mod bars;
mod batches;
mod block;
mod course;
mod drawing;
mod lanes;
mod laws;
mod live;
mod memory;
mod pairs;
mod picture;
mod picture_reading;
mod read;
mod record_line;
mod rows;
mod shape;
mod standing;
mod status;
mod status_laws;
mod status_reading;
mod status_rows;
mod text;
mod timeline;
mod told;
mod word;
mod words;

pub use laws::{lines_tell_outs, text_is_as_told, text_is_one};
pub use memory::NoMemory;
pub use picture::Picture;
pub use picture_reading::{RecordFault, draw_record};
pub use read::{phase_with, read_out};
pub use record_line::{NoRecordLine, read_record_line};
pub use rows::{other_lines, out_lines};
pub use shape::{Anchor, Block, Grid, Label, PictureShape};
pub use status::Status;
pub use status_laws::{lines_tell_their_outs, tales_are_modelled};
pub use status_reading::{StatusFault, read_status};
pub use status_rows::{state_block_rows, state_line_rows};
pub use told::{
    Begun, Claim, Created, Ended, Passed, PhaseStep, RecordedOut, Refused, Reported, Sent, Started,
};
pub use word::{is_plain_place, plain_number, state_of_word};
pub use words::Words;
