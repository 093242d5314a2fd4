//! Places, found by their client.

ghost use Rattle.std.specs.Prelude.{◌≡◌, position};
ghost use Rattle.macs_control.specs.Places.{gives_way, is_of};

use crate::connection::Connection;
use crate::place::Place;
use macs_commands::requests::Client;

/// The place of a client, if it has one.
pub(crate) fn at_client<S: Connection>(places: &[Place<S>], client: Client) -> Option<usize>
    ensures { result ≡ position (is_of client) places.now }
{
    places.iter().position(|place| place.client() == client)
}

/// The first place that is idle in this second.
pub(crate) fn at_idle<S: Connection>(places: &[Place<S>], now: u64) -> Option<usize>
    ensures { result ≡ position (gives_way now) places.now }
{
    places
        .iter()
        .position(|place| place.standing().is_idle(now))
}
