use wasm_values::{List, Val};

/// What a host, whose frame is on top, or the embedder does. Addresses are those of the store.
#[derive(Drop)]
pub enum HostAct {
    /// Sets a byte of a memory.
    Byte {
        memory: u32,
        at: u32,
        value: u8,
    },
    /// Sets a global.
    Global {
        global: u32,
        value: Val,
    },
    /// Sets an entry of a table, to a function or to nothing.
    Entry {
        table: u32,
        at: u32,
        func: Option<u32>,
    },
    /// Adds pages of zeros to a memory.
    Grow {
        memory: u32,
        pages: u32,
    },
    /// Adds empty entries to a table.
    GrowTable {
        table: u32,
        entries: u32,
    },
    /// Calls a function: its frame comes on top of the host's.
    Call {
        func: u32,
        args: List<Val>,
    },
    /// Leaves the host's frame with these results.
    Return {
        values: List<Val>,
    },
    /// Drops all frames.
    Trap,
}
