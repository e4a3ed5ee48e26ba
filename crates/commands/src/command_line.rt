//! What the words of a command line ask for.

mod forms;
mod laws;
mod paths;
mod reading;
mod views;
mod volumes;

pub use forms::WordsErr;
pub use laws::words_are_forms;
pub use reading::{Command, read_words};
pub use views::ViewWords;
pub use volumes::FormatWords;
