//! The printed text of a log: a head, the skipped records, and the lines of pipes and controller, one line of text each.
//!
//! Printing: a line is put together in a buffer on the stack and goes to the sink in one write.
//!
//! Reading: the source's bytes come through a window of 256 KiB (`sr_io::Window`), and each line is read where it lies, field by field, its line feed last. The
//! readers of fields are equal to functions on lists (`specs/Fronts.antt`), of which two laws are proved for each field: what is printed is
//! read, and what is read is what is printed. The contract of `read_lines` speaks of the printed text alone (`specs/Log.antt`).
//!
//! | part | what it is |
//! |---|---|
//! | `log`, `log_refusal` | a log in lists, and why one can't be read |
//! | `printing` | the calls that print |
//! | `line_text` | the buffer in which a line is put together, from its end to its front |
//! | `fields`, `put` | puts a key, a place, a verdict; puts a whole line |
//! | `reading` | reads a log to its end, or to its first bad line |
//! | `log_window` | the bytes that were read and aren't used yet |
//! | `adding`, `line_at` | adds the line at the front to a log; the line at the front, by the grammar |
//! | `line_fronts`, `name`, `field_fronts`, `numbers`, `word` | what stands at the front of bytes: lines, their names, keys and verdicts, numbers, words |
//! | `laws` | whatever the lines of a log are, the grammar has them |
#![tactic(auto)]

mod adding;
mod field_fronts;
mod fields;
mod laws;
mod line_at;
mod line_fronts;
mod line_text;
mod log;
mod log_refusal;
mod log_window;
mod name;
mod numbers;
mod printing;
mod put;
mod reading;
#[cfg(test)]
mod tests;
mod word;

pub use fields::put_key;
pub use laws::{line_ranges, log_ranges};
pub use line_text::LineText;
pub use log::Log;
pub use log_refusal::LogRefusal;
pub use printing::{print, print_head, print_skip};
pub use reading::read_lines;
