use wasm_values::Bytes;

/// The log of a script: a line for each action.
#[derive(Drop)]
pub struct Log {
    pub text: Bytes,
}

/// What was written while an observer looked on, up to the script's end or to where it stopped: the lines of the actions before, how
/// many steps were taken, and the number with which it stopped, if it did.
#[derive(Drop)]
pub struct SeenLog {
    pub log: Log,
    pub steps: u64,
    pub stopped: Option<u8>,
}
