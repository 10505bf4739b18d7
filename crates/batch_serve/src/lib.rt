//! Serving: event lines in, the record out; of one input, or of several desks that send lines to one machine.
#![tactic(auto)]

mod answering;
mod clean_lines;
mod desk;
mod desk_queue;
mod desk_server;
mod desks_fault;
mod desks_laws;
mod desks_remarks;
mod desks_serving;
mod fault;
mod held;
mod held_remarks;
mod journal;
mod keep;
mod laws;
mod limits;
mod line;
mod line_buffer;
mod pause;
mod reading;
mod remarked;
mod remarked_set;
mod remarking;
mod remarks;
mod rounds;
mod run;
mod serving;
mod set;
mod sorting;
mod writing;

pub use answering::answer_line;
pub use clean_lines::CleanReader;
pub use desk::ServedDesk;
pub use desk_queue::DeskQueue;
pub use desk_server::DeskServer;
pub use desks_fault::{CutReason, TurnFault};
pub use desks_laws::{
    answers_go_on_safely, due_rows, lines_go_on, lives_go_on, records_are_sorted, runs_are_sorted,
    service_goes_on, service_is_safe, transcripts_join, waiting_rows,
};
pub use desks_remarks::runs_text;
pub use fault::{ServeFault, SetFault};
pub use held::{Held, Start, shows_want};
pub use held_remarks::HeldRemarks;
pub use keep::{Keep, NoJournal, PersistFault};
pub use laws::{
    clean_line_rows, clean_lines_agree, clean_lines_serve_alike, comment_rows, held_rows,
    no_want_is_well, serving_agrees, told_is_recovered, transcripts_are_safe,
    transcripts_are_whole, transcripts_leave_nobody_in_vain, transcripts_settle, unfinished_rows,
    want_is_not_told,
};
pub use limits::piece_limit_is_fixed;
pub use line::DeskLine;
pub use pause::Pause;
pub use reading::read_lines;
pub use remarked::Remarked;
pub use remarked_set::serve_remarked;
pub use remarking::Remarking;
pub use remarks::{NoRemarks, Remarks};
pub use rounds::{Lines, Reader, ReaderMessage, Writer};
pub use run::Run;
pub use serving::serve;
pub use set::serve_set;
pub use sorting::is_due;
pub use writing::write_lines;
