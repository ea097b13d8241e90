//! The load balancer as one machine: pipes and a controller that share words, and every atomic step that each of them makes. The
//! definitions in `specs/` say what a step is and what its actor knows after it; `specs/Core.antt` puts them together to states,
//! events and runs. The types here are what actors know. No value of the views is made: contracts speak of them.
//!
//! | part | source files | `specs/` |
//! |---|---|---|
//! | Words by their names, steps on them, how they are read | `name`, `op`, `said` | `Names`, `Ops`, `Reads` |
//! | A pipe: the stages of a packet, and the view | `stage`, `flight`, `leg`, `pipe_view` | `Stages`, `Pipe` |
//! | The controller's view and what is read off it | `controller_view` and the types that it names | `Deciding` |
//! | What a free controller begins | `job`, `put`, `reply` | `Starting`; by cases `Begins` |
//! | Its steps: ticks, stores, waits and what it takes from rings | `draw`, `store`, `wait`, `why` | `Draws`, `Stores`, `Waiting`, `Taking` |
//! | Its view after a step, field by field | | `Jobs`; by cases `Goes`; `Controller` |
//! | What it is told | | `Telling` |
//! | States, events, runs, lines | `view`, `actor`, `event`, `stepped` | `Config`, `Opening`, `Core` |
//! | Turns, and turns until nothing is left | `act`, `turn`, `settled` | `Turning`, `Settling` |
//! | How many steps a packet and a turn make | `laws` | `Bounds` |
//! | One actor's access to the words | `board`, `performing` | `Boards` |
//! | What a fact owes so that every event keeps it | | `Keeping` |
//!
//! The mechanism is that of SilkRoad (SIGCOMM 2017): a table of digests with versions, insertion behind the packets, and a filter
//! that keeps connections right while an update switches a pool.
#![tactic(auto)]

mod act;
mod actor;
mod board;
mod controller_view;
mod draw;
mod event;
mod flight;
mod held_opener;
mod job;
mod laws;
mod leg;
mod name;
mod op;
mod outage;
mod performing;
mod pipe_view;
mod pool_update;
mod put;
mod reply;
mod ring_count;
mod said;
mod settled;
mod stage;
mod stepped;
mod store;
mod turn;
mod view;
mod wait;
mod why;

pub use act::Act;
pub use actor::Actor;
pub use board::Board;
pub use controller_view::ControllerView;
pub use draw::Draw;
pub use event::Event;
pub use flight::Flight;
pub use held_opener::HeldOpener;
pub use job::Job;
pub use laws::{acts_have_cases, names_agree, packets_end, runs_go_on, turns_end, words_are_read};
pub use leg::{Last, Leg, Load};
pub use name::Name;
pub use op::Op;
pub use outage::Outage;
pub use performing::perform;
pub use pipe_view::PipeView;
pub use pool_update::PoolUpdate;
pub use put::{Aim, Put};
pub use reply::Reply;
pub use ring_count::RingCount;
pub use said::Said;
pub use settled::Settled;
pub use stage::Stage;
pub use stepped::Stepped;
pub use store::Store;
pub use turn::Turn;
pub use view::View;
pub use wait::Wait;
pub use why::Why;
