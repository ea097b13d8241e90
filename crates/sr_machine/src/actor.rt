/// Who makes a step.
#[derive(Clone, Copy, Debug, PartialEq, Eq)]
pub enum Actor {
    /// The pipe of this number, from 0.
    Pipe(u8),
    /// The controller.
    Controller,
}
