/// How the packets of a capture are played by a script.
#[derive(Clone, Copy, Debug, PartialEq, Eq)]
pub(crate) enum Way {
    /// Step by step, each step or turn picked by a generator.
    Picked {
        /// What the picks begin with.
        seed: u64,
    },
    /// In threads: in each round all pipes handle their packets while the controller makes its turns.
    OnThreads,
}
