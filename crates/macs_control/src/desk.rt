//! A desk of a relay that serves the clients of a control socket.

mod answering;
mod control_desk;
mod key_notes;
mod last_good;
pub mod laws;
mod listening;
mod metrics;
mod no_system;
mod overruns;
mod replies;
mod unanswered;

pub use control_desk::{ControlDesk, report_paper};
pub use key_notes::{KeyNotes, NoteFault};
pub use last_good::Time;
pub use no_system::NoSystem;
pub use overruns::{Dropped, Overruns};
pub use unanswered::{Submitted, Unanswered};
