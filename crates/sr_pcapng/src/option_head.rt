/// What the code and the length at an option's front say.
#[derive(Clone, Copy, Debug, PartialEq, Eq)]
pub enum OptionHead {
    /// No option follows.
    Last,
    /// An option with a value.
    Value {
        /// How many bytes the value has, with those that pad it.
        size: u64,
        /// Whether its first byte is a resolution.
        tells: bool,
    },
}
