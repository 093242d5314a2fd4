//! The control socket of a relay: the system calls for it, its clients, and the desk that serves
//! them.
#![tactic(auto)]

mod asking;
mod binding;
mod buffers;
mod connection;
mod control_socket;
pub mod desk;
mod door;
mod ending;
mod finding;
pub mod keeping;
pub mod laws;
mod local_address;
mod metrics_file;
mod notifier;
mod patient;
mod place;
mod seat;
mod seats;
mod second;
mod signals;
mod standing;
mod watch;

pub use asking::{Answer, AskFault, Asker};
pub use binding::{LocalSockets, Reach, SystemSockets, bind};
pub use buffers::ask_for_buffer;
pub use connection::{Connection, Taken};
pub use control_socket::{ControlFault, ControlSocket, remove_name};
pub use door::{Door, Watched};
pub use metrics_file::{FileCalls, MetricsFile, MetricsPlace, SystemFiles, replace};
pub use notifier::Notifier;
pub use patient::PatientStream;
pub use place::Place;
pub use seat::{Hearing, Seat};
pub use seats::{MAX_CLIENTS, Seats};
pub use signals::is_term_pending;
pub use standing::Standing;
pub use watch::{NO_SOCKET, Sockets, Watch};
