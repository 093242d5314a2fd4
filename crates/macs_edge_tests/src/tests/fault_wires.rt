//! The wire that fails some calls, by itself.

use super::wires::send;
use linked_list_allocator::LocalHeap;
use macs_edge::{FaultWire, MemWire, Wire, WireFault};

fn failing<W: Wire>(wire: W, receive_at: u64, send_at: u64) -> FaultWire<W> {
    FaultWire::new(wire, receive_at, send_at)
}

fn behind<W: Wire>(wire: &FaultWire<W>) -> &W {
    wire.inner()
}

/// What the wire behind answers is handed on as it is, and a send that fails does not reach it.
#[test]
fn want_of_memory_is_handed_on(rt: HostRuntime) {
    let heap = LocalHeap::new(rt.alloc(), 0).expect(&rt, "a heap");
    let mut wire = failing(MemWire::new(&heap), 0, 2);
    for wanted in [WireFault::Memory, WireFault::Send, WireFault::Memory] {
        assert!(rt; send(&mut wire, &[7; 50]) == Err(wanted));
    }
    assert!(rt; behind(&wire).sent().is_empty());
}
