//! Laws of the definitions: what is asked of the system, and what becomes of clients.

ghost use Rattle.macs_control.specs.StandingWords.{PlaceWords};

use crate::connection::Connection;

/// Clients that keep their places when a newcomer arrives, over connections of any kind.
pub fn places<S: Connection>()
    ensures { PlaceWords S }
{}
