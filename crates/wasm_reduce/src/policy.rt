/// How far a run may go: the pages of all memories of a store together, and the frames.
#[derive(Clone, Copy, Debug, PartialEq, Eq)]
pub struct Policy {
    pub pages: u32,
    pub frames: u32,
}
