//! What the load balancer prints, and what a lawful list of printed lines is. A line says what became of a packet, or what the controller
//! did; the definitions in `specs/` judge a line by the lines before it. `specs/Lawful.antt` puts them together, and `auditor` judges a list.
//!
//! | clause | source files | `specs/` |
//! |---|---|---|
//! | Order: ticks rise, updates in groups, numbers in range, places | `order`: `rising`, `groups`, `ranges`, `takings` | `Order`: `Rising`, `Groups`, `Ranges`, `Taken` |
//! | Server: the hash's pick from a named pool | `server`: `givings`, `pools`, `own_pools` | `Server`: `Given`, `Pools` |
//! | Same: the pool of the opening | `same`: `openings` | `Same`: `Opening` |
//! | Newer: the pool of the last switch, or a later one | `newer` | `Newer` |
//! | Number: no version that something holds | `number` | `Number` |
//! | Cause: a server that is known to be down | `cause`: `downs` | `Cause`: `TakenDown` |
//! | Cause: an opener was held | `cause`: `clashing`, `keys`, `holding`, `filter` | `Cause`: `Held`, `Keys` |
//! | Cause: a full ring, no place | `cause`: `full`, `rows` | `Cause`: `Full`, `Rows` |
//! | Retire: sweeps, and who was quiet for how many | `retire`: `sweeps` | `Retire` |
//! | Final: each packet has one final line | `pairs`, `packets` | `Final` |
//!
//! | part | source files | `specs/` |
//! |---|---|---|
//! | A line, its ticks and whose it is | `line`, `verdict`, `choice` | `Ticks` |
//! | What a list is judged for | `setup` | `Setup`, `Shaped` |
//! | What the judges find in a list | `giving`, `opening`, `taking`, `sweep` | |
//! | The auditor and what it answers | `auditor`, `check_refusal`, `clause` | `Lawful` |
//! | Laws of lawful lists | `laws` | `Laws` |
//! | When nothing is left to do at the end of a run | none yet | `Settled` |
#![tactic(auto)]

mod auditor;
mod cause;
mod check_refusal;
mod choice;
mod clashing;
mod clause;
mod downs;
mod filter;
mod full;
mod giving;
mod givings;
mod groups;
mod holding;
mod keys;
mod laws;
mod line;
mod newer;
mod number;
mod opening;
mod openings;
mod order;
mod own_pools;
mod packets;
mod pairs;
mod pools;
mod ranges;
mod retire;
mod rising;
mod rows;
mod same;
mod server;
mod setup;
mod sweep;
mod sweeps;
mod taking;
mod takings;
mod verdict;

pub use auditor::check_plain;
pub use check_refusal::CheckRefusal;
pub use choice::Choice;
pub use clause::Clause;
pub use giving::Giving;
pub use laws::{
    breaks_none, keeps_server, more_support, names_a_breach, one_more_line, opens_newer,
    out_supports, supported_anew,
};
pub use line::Line;
pub use opening::Opening;
pub use pools::Pools;
pub use setup::Setup;
pub use sweep::Sweep;
pub use taking::Taking;
pub use verdict::{HeldBy, Verdict};

// The plain bodies that an auditor with indexes asks.
pub use cause::meets_cause;
pub use downs::is_known_down;
pub use givings::has_pool;
pub use groups::{goes_on, is_of_update, is_opening_give, names_next_pool};
pub use newer::last_switched;
pub use number::meets_number;
pub use openings::{opened_by, retires};
pub use order::refuses_next;
pub use packets::{same_packet, same_packets};
pub use pairs::{all_answers_held, all_held_answered};
pub use ranges::in_range;
pub use retire::meets_retire;
pub use rising::{after_last, is_in_time, share_tick, was_controlling, was_in_pipe};
pub use takings::keeps_places;
