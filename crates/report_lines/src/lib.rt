//! Reports and their lines: what is said of files, of bytes that are no module, and of modules that aren't valid.
#![tactic(auto)]

mod line;
mod report;
mod said;
mod status;

pub use line::{decode_text, limit_text, valid_text, word_line};
pub use report::{Report, Stop, fixed, negative};
pub use said::{faulty, invalid, limited, too_long, unread};
pub use status::Status;
