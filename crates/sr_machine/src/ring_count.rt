/// What the controller has taken from a pipe's ring.
#[derive(Clone, Copy)]
pub struct RingCount {
    /// How many words. The next one is in the cell of this number modulo the ring's cells.
    pub words: u64,
    /// How many reports of held openers.
    pub punts: u32,
}
