//! A journal of lines: all lines given on are in it, whole, after a crash at any moment.
#![tactic(auto)]

mod digest;
mod disk;
mod file_disk;
mod group;
mod groups;
mod laws;
mod lines;
mod memory;
mod reader;
mod recovery;
mod run;
mod sum;
mod window;

pub use digest::{Digits, DocumentsDigest};
pub use disk::{Disk, DiskError};
pub use file_disk::FileDisk;
pub use groups::Groups;
pub use laws::{
    crash_is_no_damage, group_is_taken, groups_go_on, lines_begin, recovered_are_lines,
    recovery_rows, taken_is_not_refused, torn_is_left,
};
pub use lines::are_whole_lines;
pub use memory::{Memory, Past};
pub use reader::JournalReader;
pub use recovery::{Recovered, RecoveryFault, recover};
pub use run::JournalRun;
pub use sum::Sum;
