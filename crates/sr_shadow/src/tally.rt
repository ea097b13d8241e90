// How many registered keys clash with one another in a way, how many of them are outside the full-key table, and how many stand in a slot
// of the way.
#[derive(Clone, Copy, Debug, PartialEq, Eq)]
pub(crate) struct Tally {
    pub(crate) members: u64,
    pub(crate) outside: u64,
    pub(crate) standing: u64,
}
