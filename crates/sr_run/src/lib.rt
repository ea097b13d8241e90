//! All that the program does, behind one call. `run` reads the words, and does what the command says over a source, a shelf, a sink and a
//! gate; what it prints is a stated function of the bytes that it reads.
//!
//! | part | what it is |
//! |---|---|
//! | `top` | `run` |
//! | `command`, `parting`, `servers`, `numbers` | the words: the command, its parts by the command-line library, and what stands among them |
//! | `one`, with `print_log` | the command `one`: a whole capture is read (`sr_capture`), then printed |
//! | `make_capture` | the command `make` |
//! | `demo` | the command `demo`: a demonstration (`sr_demo`), then its four lines |
//! | `audit`, with `script_text`, `numbering` | the command `audit`: the script, the log, and the records' numbers |
//! | `played`, with `way`, `print_lines` | the commands `replay` and `steps`: the script, the whole capture, its run (`sr_scripted`), then printing |
//! | `status` | how a run ends |
#![tactic(auto)]

mod audit;
mod command;
mod demo;
mod make_capture;
mod numbering;
mod numbers;
mod one;
mod parting;
mod played;
mod print_lines;
mod print_log;
mod script_text;
mod servers;
mod status;
mod top;
mod way;

pub use sr_capture::CaptureRefusal;
pub use status::Status;
pub use top::run;
