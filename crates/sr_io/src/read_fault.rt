use thiserror::Error;

/// The source failed.
#[derive(Clone, Copy, Debug, PartialEq, Eq, Error)]
#[error("read fault")]
pub struct ReadFault;
