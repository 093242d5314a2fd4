//! Laws of the definitions, for the layers above.

ghost use Rattle.std.specs.Prelude.{◌≡◌, ℕ, List, Result};
ghost use Rattle.macs_pcap.specs.Records.{CaptureRecord};
ghost use Rattle.macs_endpoint.specs.State.{State};
ghost use Rattle.macs_endpoint.specs.declared.fault.RefillFault.{RefillFault};
ghost use Rattle.macs_edge.specs.Attending.{Attends};
ghost use Rattle.macs_edge.specs.Commanding.{IsAttendedFlow};
ghost use Rattle.macs_edge.specs.Flows.{ArePrompt, FlowsInTurns, FlowsWithin};
ghost use Rattle.macs_edge.specs.Flows.{IsFlow};
ghost use Rattle.macs_edge.specs.CaptureRuns.{BecomesCapture, Passes};
ghost use Rattle.macs_edge.specs.Relaying.{Relay, Relays, empty_lane, summary_of};
ghost use Rattle.macs_edge.specs.declared.attending.DeskEvent.{DeskEvent};
ghost use Rattle.macs_edge.specs.declared.relaying.RelaySummary.{RelaySummary};
ghost use Rattle.macs_edge.specs.declared.settling.Side.{Side};

use macs_disk::SectorDisk;

/// Records pass in one way only: what passes, and the state after, are determined by the records
/// and the state before.
pub fn passes_once()
    ensures { (side : Side) (old : State) (records p q : List CaptureRecord) (m n : State)
        → Passes side old records p m → Passes side old records q n → (p ≡ q) × (m ≡ n) }
{}

/// An input becomes one capture only.
pub fn becomes_once()
    ensures { (side : Side) (old : State) (input p q : List ℕ)
        → BecomesCapture side old input p → BecomesCapture side old input q → p ≡ q }
{}

/// What a relay sends on each wire is all that the endpoint gave for it, in order, except for as
/// many frames as the wire's failed sends increased by. Every frame that was taken was sent, lost
/// with a failed send, or dropped; and the summary counts them accordingly.
pub fn relayed<D: SectorDisk>()
    ensures { (turns : ℕ) (old new : Relay D) (result : Result RelaySummary RefillFault)
        → old.to_common ≡ empty_lane → old.to_controlled ≡ empty_lane
        → Relays D.disk turns old result new
        → IsFlow D.disk old new (summary_of new.to_common new.to_controlled) }
{}

/// Frames pass through an attended relay as through any other. The commands that its desk submits
/// are passed to the endpoint, call by call, and the desk is given the answers. The results that it
/// is given later are those of the commands that steps completed; after that each pending command
/// fails. So a command is answered as kept only if a step answered that it is. Each command that
/// was taken is answered once, in the order of tickets.
pub fn attended<D: SectorDisk>()
    ensures { (turns : ℕ) (old new : Relay D) (events : List DeskEvent)
        (result : Result RelaySummary RefillFault)
        → old.to_common ≡ empty_lane → old.to_controlled ≡ empty_lane
        → Attends D.disk turns old events result new
        → IsAttendedFlow D.disk old events new (summary_of new.to_common new.to_controlled) }
{}

/// A relay makes at most one step per turn. Over prompt disks it makes one: as many as it has
/// turns, or fewer if a step is answered with a fault.
pub fn steps_are_turns<D: SectorDisk>()
    ensures within { (turns : ℕ) (old new : Relay D) (result : Result RelaySummary RefillFault)
        → old.to_common ≡ empty_lane → old.to_controlled ≡ empty_lane
        → Relays D.disk turns old result new → FlowsWithin D.disk turns old new }
    ensures prompt { (turns : ℕ) (old new : Relay D) (result : Result RelaySummary RefillFault)
        → ArePrompt D.disk → old.to_common ≡ empty_lane → old.to_controlled ≡ empty_lane
        → Relays D.disk turns old result new
        → FlowsInTurns D.disk turns old result new }
{}
