//! The commands that need no served volume: the script on a plain tree, the labels of a cartridge, the list of its tree,
//! and the making of an empty volume. And what the others share with them: the end of a run, and how it is told.

mod ended;
mod formats;
mod labels;
mod lists;
mod plain;
mod scripts;
mod session;
mod telling;

pub use ended::{Ended, Status};
pub use formats::{full_text, run_format};
pub use labels::{drive_text, mount_status, mount_text, run_label};
pub use lists::{FoundTree, run_list, write_found};
pub use plain::run_plain;
pub use scripts::{Unread, read_calls, unread_status, unread_text};
pub use telling::{bytes_of, tell, tell_made};
