//! A session: requests as lines of text, and the lines that answer them.
//!
//! `SessionReader::next` reads no further than the end of the line that it answers with, where bytes come one by one: it
//! asks for more only where no whole line is there.
#![tactic(auto)]

mod answer;
mod laws;
mod look;
mod number;
mod reader;
mod request;

pub use answer::{Answer, answer_line, put_answer};
pub use laws::requests_come_in_turn;
pub use reader::SessionReader;
pub use request::{Request, SessionFault};
