//! What the controller keeps of version numbers and updates. (SilkRoad, SIGCOMM 2017: a pool's update gives the
//! virtual address a new version, and a Bloom filter, the transit table, keeps connections right that are still
//! pending while it switches.)
//!
//! | part | what it is |
//! |---|---|
//! | `grace`, `saw` | a wait for every pipe after a publication, and the sign that it has ended |
//! | `numbers`, `number_state` | the state of each version number of each virtual address: Free, Current or Draining |
//! | `row`, `number_set` | the numbers of one virtual address, and sets of them as the bits of a word |
//! | `updates`, `give_change`, `begin` | the changes that give a pool and are still to be made, and the beginning of an update |
//! | `update`, `recording`, `holding`, `moving`, `closing` | an update in its phases; each step uses up the last and a `Passed` |
//! | `laws` | what graces, phases and numbers keep to |
//!
//! For which keys an update waits is said in `specs/Waits.antt`.
#![tactic(auto)]

mod begin;
mod closing;
mod give_change;
mod grace;
mod holding;
mod laws;
mod moving;
mod number_set;
mod number_state;
mod numbers;
mod recording;
mod row;
mod saw;
mod update;
mod updates;

pub use begin::Begin;
pub use closing::Closing;
pub use give_change::GiveChange;
pub use grace::{Grace, Passed};
pub use holding::Holding;
pub use laws::{
    graces_wait_for_all, made_in_order, numbers_are_free_by_release, replaced_numbers_drain,
};
pub use moving::Moving;
pub use number_state::NumberState;
pub use numbers::Numbers;
pub use recording::Recording;
pub use saw::Saw;
pub use update::Update;
pub use updates::Updates;
