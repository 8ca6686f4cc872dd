//! Lists as text: one list of numbers, words, strings and lists, read with places and printed.
#![tactic(auto)]

mod bytes;
mod fault;
mod laws;
mod print;
mod read;
mod reader;
mod run;
mod sexp;
mod step;

pub use fault::{TextFault, TextWord};
pub use laws::{
    longest_reading, longest_word, one_value, printed_again, printed_alike, refused_once,
    spelled_is_read, value_or_fault,
};
pub use print::print_sexp;
pub use read::read_sexp;
pub use sexp::{Node, Sexp};
