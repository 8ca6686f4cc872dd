//! What instructions that stay in the body do to a symbolic state.
#![tactic(auto)]

mod accesses;
mod entries;
mod forms;
mod formulas;
mod growing;
mod memory;
mod numeric;
mod plain;
mod variables;

pub use forms::{
    both_of, cell_of, empty_with, label_of, loop_of, skip_of, table_of, take_of, trap_of, unused,
    with_of,
};
pub use growing::memory_grow;
pub use memory::{load_private, memory_size, store_private};
pub use numeric::{numeric_one, push_two};
pub use plain::{constant, drop_operand, nop, select};
pub use variables::{global_get, global_set, local_get, local_set, local_tee};
