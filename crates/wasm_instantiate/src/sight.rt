/// What an observer answers: the session may go on, or it stops for a reason with this number.
#[derive(Clone, Copy, Debug, PartialEq, Eq)]
pub enum Sight {
    GoOn,
    Stop(u8),
}
