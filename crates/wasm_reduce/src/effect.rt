/// What an instruction leaves to the frames around its own.
#[derive(Clone, Copy, Debug)]
pub enum Effect {
    /// The frame goes on.
    Went,
    Trap,
    /// The frame is left with its results, which lie below so many operands.
    Leave { above: usize },
    /// A function is entered with its arguments, which lie below so many operands. The frame then goes on at a position.
    Enter { func: u32, above: usize, on: u32 },
}
