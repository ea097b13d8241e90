//! The controller of `sr_machine` as code: its next step, and what it knows after each answer, for whoever has words to make the
//! steps on. Nothing that it decides walks the book: it looks at a few entries by the book's indexes, and remembers which pending ones it asked in vain.
//!
//! | part | source files | `specs/` |
//! |---|---|---|
//! | What a machine is made for | `machine_config` | `Config` |
//! | The book: how far its pending entries were asked, what is asked of it | `planned_book`, `awaiting`, `asking` | `Pending` |
//! | Versions: their states, the pools that they name, the words of virtual addresses | `versions`, `named_row` | `Versions` |
//! | Queues: held openers, servers to be taken down, lines | `held_openers`, `outages`, `written` | `Openers`, `HeldLines` |
//! | The controller: it is told, begins, makes a step | `controller_machine` | `HeldController` |
//! | What it begins, and what its jobs name | `starting`, `beginning` | `Starts`, `Fits` |
//! | Which word its step is made on, and what is stored | `acting`, `deciding`, `words` | |
//! | What it knows after a tick, a store, a wait and a taken word | `drawing`, `storing`, `waiting`, `taking` | |
//! | What a step ends, and for which key an update waits | `turning` | |
#![tactic(auto)]

mod acting;
mod asking;
mod awaiting;
mod beginning;
mod controller_machine;
mod deciding;
mod drawing;
mod held_openers;
mod machine_config;
mod named_row;
mod outages;
mod planned_book;
mod starting;
mod storing;
mod taking;
mod turning;
mod versions;
mod waiting;
mod words;
mod written;

pub use controller_machine::ControllerMachine;
pub use held_openers::HeldOpeners;
pub use machine_config::MachineConfig;
pub use outages::Outages;
pub use planned_book::PlannedBook;
pub use versions::Versions;
