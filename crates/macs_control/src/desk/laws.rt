//! Laws of the definitions, for the layers above.

ghost use Rattle.std.specs.Prelude.{◌≡◌, ℕ, [], List, Result};
ghost use Rattle.macs_edge.specs.Attending.{Attends};
ghost use Rattle.macs_commands.specs.InTurn.{InTurn};
ghost use Rattle.macs_edge.specs.Relaying.{Relay, empty_lane};
ghost use Rattle.macs_edge.specs.declared.attending.DeskEvent.{DeskEvent};
ghost use Rattle.macs_edge.specs.declared.relaying.RelaySummary.{RelaySummary};
ghost use Rattle.macs_endpoint.specs.declared.fault.RefillFault.{RefillFault};
ghost use Rattle.macs_commands.specs.Talks.{Talk};
ghost use Rattle.macs_control.specs.Serving.{ClientsAreTold, DeskState, ServesClients, Speaks};
ghost use Rattle.macs_control.specs.Serving.{SpeaksToClients};
ghost use Rattle.macs_control.specs.Unanswered.{entries_of};
ghost use Rattle.macs_control.specs.declared.desk.control_desk.ControlDesk.{ControlDesk};

use macs_commands::requests::Clients;
use macs_disk::SectorDisk;

/// Over a whole relay that a desk attends, starting from an endpoint without pending commands: each
/// command that was taken is answered once, in the order of tickets, to the client that gave it,
/// with the result that the relay reported; and when the relay has ended no command is left. The
/// results that a relay reports are those of the commands that steps completed
/// (`macs_edge::laws::attended`), so `ok` is sent only after a step answered that the command is
/// kept.
pub fn clients_are_told<D: SectorDisk>()
    ensures { (turns : ℕ) (old new : Relay D) (events : List DeskEvent) (talks : List (List Talk))
        (before after : DeskState) (result : Result RelaySummary RefillFault)
        → old.to_common ≡ empty_lane → old.to_controlled ≡ empty_lane → old.endpoint.waiting ≡ []
        → before.unanswered ≡ [] → Attends D.disk turns old events result new
        → Speaks before events talks after
        → ClientsAreTold before.asking events talks × (after.unanswered ≡ []) }
{}

/// Of the program's desk, which serves its clients so over a whole relay whose events come to it.
pub fn clients_are_served<D: SectorDisk, C: Clients, M, S>()
    ensures { (turns : ℕ) (old new : Relay D) (events : List DeskEvent)
        (before after : ControlDesk C M S) (result : Result RelaySummary RefillFault)
        → old.to_common ≡ empty_lane → old.to_controlled ≡ empty_lane → old.endpoint.waiting ≡ []
        → entries_of before.unanswered ≡ [] → Attends D.disk turns old events result new
        → InTurn (SpeaksToClients C.does) before events after
        → ServesClients C.does before events after }
{}
