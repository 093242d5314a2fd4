//! Captures through an endpoint, wires, the lines of a control socket and the desk that answers
//! them, a disk that a keeper keeps, and one that answers later.

mod captures;
mod control;
mod datagrams;
mod desk;
mod endpoints;
mod fault_wires;
mod keeping;
mod late;
mod links;
mod relaying;
mod requests;
mod resting;
mod sockets;
mod wires;
