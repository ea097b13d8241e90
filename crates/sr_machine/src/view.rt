use crate::{ControllerView, PipeView};

/// What an actor knows.
pub enum View {
    /// A pipe's.
    OfPipe(PipeView),
    /// The controller's.
    OfController(ControllerView),
}
