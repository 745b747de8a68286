//! The frames of a clip: its stream, window by window, or one by one as a session asks for them.
//!
//! `put_graph_alone` and `put_graph_together` make the core of a graph and put its stream: the head, and its frames by one
//! worker or by several. They are two, since what may wait for threads is a function of its own. `answer_graph` answers
//! the requests of a session from such a core, each frame in a window of its own.
//!
//! What is put is the frames of whole windows, in order. `render_plain` has one worker, and its journal is that of the
//! serial run, up to a window that a stop cut short. `render_crew` has several. Its journal is a run of the machine in
//! each window, and the events of each worker are whole work, up to such a window
//! (`serve_machine/specs/Journals.antt`); of a whole render, so are those of one worker. While the workers make a
//! window, the caller first puts the frames of the one before.
#![tactic(auto)]

mod chore;
mod crew;
mod crew_window;
mod finished;
mod frames;
mod graph;
mod player;
mod pool_size;
mod session;
mod stops;
mod stream;
mod table;
mod windows;

pub use crew::render_crew;
pub use graph::SharedGraph;
pub use pool_size::{Pool, PoolSize};
pub use serve_alone::run_alone;
pub use serve_core::Worker;
pub use serve_shared::{Gate, GatePoint, OpenGate, run_shared};
pub use session::{SessionStop, answer_graph};
pub use stops::RenderStop;
pub use stream::RenderedClip;
pub use table::{put_graph_alone, put_graph_together};
pub use windows::render_plain;
