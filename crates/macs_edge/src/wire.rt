//! Wires: where frames come from and go to.

ghost use Rattle.macs_edge.specs.Wires.{Receives, Sends, WireState};

use macs_frame::FrameBuf;

/// The answer of a wire to a receive.
#[derive(Clone, Copy, Debug, PartialEq, Eq)]
pub enum Got {
    /// No frame is waiting.
    Nothing,
    /// A frame of at most 9,216 octets: it is in the buffer.
    Frame,
    /// A frame of more than 9,216 octets. It is dropped.
    TooLong,
}

/// Why a wire does not give or take a frame. If a wire reports its frames, it keeps the frames that
/// it had to give, and the frame that it was given is not sent.
#[derive(Clone, Copy, Debug, PartialEq, Eq)]
pub enum WireFault {
    /// A receive failed.
    Receive,
    /// A send failed.
    Send,
    /// Memory ran out.
    Memory,
}

/// A source and destination of frames. A frame is an Ethernet frame without FCS. No call blocks. A
/// wire counts its failed receives and its failed sends, each up to 2^64 - 1, and may report which
/// frames it will give and which it sent.
pub trait Wire {
    /// The state that it reports.
    ghost state: { Self → WireState };

    /// Takes the next frame, if there is one. The buffer is empty unless a frame is returned.
    fn receive(&mut self, into: &mut FrameBuf) -> Result<Got, WireFault>
        ensures { Receives (state self.old) result into.new.items (state self.new) };

    /// Sends a frame.
    fn send(&mut self, frame: &[u8]) -> Result<(), WireFault>
        ensures { Sends (state self.old) frame.now result (state self.new) };
}
