// What a turn, and what may follow it, came to.
#[derive(Clone, Copy)]
pub(crate) enum Went {
    // It is followed by the next one; a change was refused, where that was to be.
    On,
    // Nothing is left to do.
    Over,
    // There was no memory for it, and nothing changed.
    Nowhere,
}
