use wasm_values::{List, Text, Val};

/// A module that is loaded: its name, and the name of its file.
#[derive(Drop)]
pub struct Load {
    pub name: Text,
    pub file: Text,
}

/// What an import is given: an export of an instance. `at` is the place of the export's name in the script.
#[derive(Drop)]
pub struct Origin {
    pub instance: Text,
    pub export: Text,
    pub at: usize,
}

/// What is done with modules that were loaded and instances that were made.
#[derive(Drop)]
pub enum Action {
    /// Makes an instance of a module, whose imports are given in their order.
    New {
        instance: Text,
        module: Text,
        from: List<Origin>,
    },
    /// Calls an export of an instance. `at` is the place of the export's name in the script.
    Call {
        instance: Text,
        export: Text,
        at: usize,
        args: List<Val>,
    },
}

/// A script. All its actions together take at most `steps` steps.
#[derive(Drop)]
pub struct Script {
    pub steps: u32,
    pub loads: List<Load>,
    pub actions: List<Action>,
}
