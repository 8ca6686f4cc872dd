use thiserror::Error;

/// What a step came to.
#[derive(Clone, Copy, Debug, PartialEq, Eq)]
pub enum Moved {
    /// The run goes on.
    Went,
    /// The last frame was left.
    Done,
    Trapped,
}

/// Why a step was refused.
#[derive(Clone, Copy, Debug, PartialEq, Eq, Error)]
pub enum StepFault {
    /// The step would enter a frame past the policy's number.
    #[error("too many frames")]
    Limit,
    #[error("out of memory")]
    OutOfMemory,
}
