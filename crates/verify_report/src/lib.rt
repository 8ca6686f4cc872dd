//! The report of words over files: what `verify`, `check`, `show`, `steps`, `seal`, `sealed` and `link` say of them.
#![tactic(auto)]

mod bounds;
mod commands;
mod judge;
mod laws;
mod line;
mod sealed;
mod stages;

pub use commands::reported;
pub use laws::{
    every_report_exists, one_report, sealed_answers_as_verify, show_has_a_report,
    what_is_sealed_is_verified,
};
pub use report_lines::{Report, Status, Stop};
