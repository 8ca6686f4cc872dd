//! Instructions by which control may leave a body, on a symbolic state: calls, and what may trap.
#![tactic(auto)]

mod accesses;
mod arguments;
mod calling;
mod facts;
mod forms;
mod guards;
mod indirect;
mod operators;
mod trapping;
mod types;

pub use accesses::{load, store};
pub use calling::{call, come_back};
pub use forms::{both_of, loop_of, no_with, skip_of, table_of, with_of};
pub use indirect::call_indirect;
pub use operators::numeric;
pub use trapping::{trap, unreachable};
