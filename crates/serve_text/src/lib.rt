//! The texts of the program: a graph of filters, the report of a render, and why a run ends early.
//!
//! `info_text` is exactly the text that `specs/InfoText.antt` gives. Without memory, `put_clip_line` puts its first line,
//! and `put_report` exactly the text of `specs/Report.antt`, a line for each node. Each stop has an exit status and one
//! line (`specs/Lines.antt`); a report or a journal that was cut short has the line of a failed write after it
//! (`specs/Report.antt`).
#![tactic(auto)]

mod counts;
mod info;
mod lines;
mod report;
mod say;
mod stop;
mod text;

pub use info::{info_text, put_clip_line};
pub use lines::put_report;
pub use report::{put_journal_of, put_report_of};
pub use say::{say_stop, say_usage};
pub use stop::{FileFault, Stop};
