/// A quantity that has a greatest value, in a file or in what is made of it.
#[derive(Clone, Copy, Debug, PartialEq, Eq)]
pub enum LimitWord {
    Module,
    Notes,
    Script,
    Types,
    Imports,
    Functions,
    Globals,
    Params,
    Locals,
    Nesting,
    Nodes,
    State,
    Facts,
    Chunks,
    Variables,
    Derivation,
}
