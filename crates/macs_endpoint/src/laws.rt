//! Laws of the definitions, for the layers above.

ghost use Rattle.std.specs.Prelude.{◌≡◌, ◌≢◌, ◌<◌, ◌≤◌, ◌⊎◌, ◌+◌, ◌/◌, ◌^◌, ◌-◌, Bool, ℕ, List, []};
ghost use Rattle.std.specs.Prelude.{Some, Ok, Err, false};
ghost use Rattle.macs_aes.specs.declared.keys.Key.{Key};
ghost use Rattle.macs_config.specs.declared.command.Command.TheVariants.{TxInstall};
ghost use Rattle.macs_txsc.specs.declared.fault.TxFault.TheVariants.{NoNumber};
ghost use Rattle.macs_rxsc.specs.Receive.{Arrival, Arrives};
ghost use Rattle.macs_rxsc.specs.declared.verdict.Verdict.TheVariants.{HeldBack};
ghost use Rattle.macs_store.specs.Keeps.{most_calls};
ghost use Rattle.macs_store.specs.Value.{IsIdle, standing_in};
ghost use Rattle.macs_endpoint.specs.Advancing.{ToRaise, next_due};
ghost use Rattle.macs_endpoint.specs.Calls.{IsCall, IsStep};
ghost use Rattle.macs_endpoint.specs.Ceilings.{Raise, standing_with_raise};
ghost use Rattle.macs_endpoint.specs.Value.{EndpointValue, IsAtRest, IsBacked, IsSoundEndpoint};
ghost use Rattle.macs_endpoint.specs.Value.{disk_in, is_stopped, on_device, state_of};
ghost use Rattle.macs_endpoint.specs.WorkThroughCalls.{Lasts, Needs, NoneDone, NoneReserved};
ghost use Rattle.macs_endpoint.specs.WorkThroughCalls.{commands_done, reservations_made};
ghost use Rattle.macs_endpoint.specs.WorkThroughCalls.{steps_made};
ghost use Rattle.macs_endpoint.specs.Lives.{Lives, Transition};
ghost use Rattle.macs_endpoint.specs.Rooms.{HasRoom, IsBelow, IsEncodingAn, RxStays, TxStays};
ghost use Rattle.macs_endpoint.specs.Rooms.{frames_sent};
ghost use Rattle.macs_endpoint.specs.State.{Advanced, Advances, Call, Protects, Protected};
ghost use Rattle.macs_endpoint.specs.State.{Received, Receives, Refilled, Refills, Reply};
ghost use Rattle.macs_endpoint.specs.State.{command_made, no_logs, rx_side};
ghost use Rattle.macs_endpoint.specs.declared.fault.ProtectFault.TheVariants.{Tx};
ghost use Rattle.macs_endpoint.specs.declared.progress.Step.TheVariants.{Idle, Reserved, Worked};
ghost use Rattle.macs_disk.specs.Disk.{MayLeave, now};
ghost use Rattle.macs_disk.specs.States.{Image};
ghost use Rattle.macs_endpoint.specs.AtRest.{IsLevel, OpensAt, SkipsNone};
ghost use Rattle.macs_endpoint.specs.Restart.{opened_state};
ghost use Rattle.macs_store.specs.Found.{StandingIs};
ghost use Rattle.macs_store.specs.Standing.{Standing};
ghost use Rattle.macs_endpoint.specs.State.{Logs, Rested, Rests, State};

use macs_disk::SectorDisk;

/// The packet number of a frame that is sent is 1 to 2^32 - 1.
pub fn frame_numbers_in_range<D: SectorDisk>()
    ensures { (old new : EndpointValue D) (plain out : List ℕ) (pn : ℕ) → IsSoundEndpoint old
        → IsCall D.disk old (Protects plain) (Protected (Ok pn) out) new
        → (1 ≤ pn) × (pn < 2 ^ 32) }
{}

/// How many frames are sent under an association before `NoNumber` may be returned.
///
/// After `refill` returned Ok, or `step` returned `Idle`, it is one more than half a transmit
/// block, rounded down, under the encoding association; after the call that made an install
/// durable, whichever call that was, it is a block; or until the numbers end, when `Exhausted` is
/// returned. It is one less for each frame that is sent under the association while it exists.
pub fn frames_before_no_number<D: SectorDisk>()
    ensures refilled { (old new : EndpointValue D) (an : ℕ) → IsSoundEndpoint old
        → IsCall D.disk old Refills (Refilled (Ok tt)) new → IsEncodingAn new an
        → HasRoom new an ((standing_in new.store).identity.tx_block / 2 + 1) }
    ensures idle { (old new : EndpointValue D) (an : ℕ) → IsSoundEndpoint old
        → IsCall D.disk old Advances (Advanced (Ok Idle)) new → IsEncodingAn new an
        → HasRoom new an ((standing_in new.store).identity.tx_block / 2 + 1) }
    ensures installed { (old new : EndpointValue D) (call : Call) (reply : Reply) (an : ℕ)
        (key : Key) (start : ℕ) (confidential : Bool) (offset : ℕ)
        → IsSoundEndpoint old → IsCall D.disk old call reply new
        → command_made (state_of old no_logs) call reply
        ≡ Some (TxInstall an key start confidential offset)
        → HasRoom new an (standing_in new.store).identity.tx_block }
    ensures stays { (old new : EndpointValue D) (turns : List (Transition D)) (an count : ℕ)
        → IsSoundEndpoint new → Lives D.disk old turns new → TxStays an old turns
        → HasRoom old an count → HasRoom new an (count - frames_sent an old turns) }
    ensures numbered { (old new : EndpointValue D) (an count : ℕ) (plain out : List ℕ)
        → IsEncodingAn old an → HasRoom old an count → 1 ≤ count
        → IsCall D.disk old (Protects plain) (Protected (Err (Tx NoNumber)) out) new → ⊥ }
{}

/// Which frames are not held back.
///
/// After `refill` returned Ok, or `step` returned `Idle`, these are the frames of an association on
/// which a frame was seen, whose numbers are not above the greatest seen, or below both
/// `next + rx_block / 2 + 1` and `seen + rx_block`, with the values at that time. They are not held
/// back while the association exists. So a frame that was held back is not held back again once a
/// later `refill` returned Ok, or a later `step` returned `Idle`, while its association exists.
pub fn frames_not_held_back<D: SectorDisk>()
    ensures refilled { (old new : EndpointValue D) (sci : List ℕ) (an next lowest seen pn : ℕ)
        → IsSoundEndpoint new
        → IsCall D.disk old Refills (Refilled (Ok tt)) new
        → (state_of new no_logs).numbers sci an
        ≡ Some (record { next = next; lowest = lowest; seen = Some seen }) → pn < 2 ^ 32
        → ((pn ≤ seen) ⊎ ((pn < next + (standing_in new.store).identity.rx_block / 2 + 1)
        × (pn < seen + (standing_in new.store).identity.rx_block)))
        → IsBelow new sci an pn }
    ensures idle { (old new : EndpointValue D) (sci : List ℕ) (an next lowest seen pn : ℕ)
        → IsSoundEndpoint new
        → IsCall D.disk old Advances (Advanced (Ok Idle)) new
        → (state_of new no_logs).numbers sci an
        ≡ Some (record { next = next; lowest = lowest; seen = Some seen }) → pn < 2 ^ 32
        → ((pn ≤ seen) ⊎ ((pn < next + (standing_in new.store).identity.rx_block / 2 + 1)
        × (pn < seen + (standing_in new.store).identity.rx_block)))
        → IsBelow new sci an pn }
    ensures again { (old mid late new : EndpointValue D) (turns : List (Transition D))
        (frame out : List ℕ) (a : Arrival) → IsSoundEndpoint new
        → Arrives (rx_side (state_of old no_logs)) frame a
        → IsCall D.disk old (Receives frame) (Received (Ok HeldBack) out) mid
        → Lives D.disk mid turns late → RxStays a.sci a.an mid turns
        → IsCall D.disk late Refills (Refilled (Ok tt)) new
        → IsBelow new a.sci a.an a.pn }
    ensures later { (old mid late new : EndpointValue D) (turns : List (Transition D))
        (frame out : List ℕ) (a : Arrival) → IsSoundEndpoint new
        → Arrives (rx_side (state_of old no_logs)) frame a
        → IsCall D.disk old (Receives frame) (Received (Ok HeldBack) out) mid
        → Lives D.disk mid turns late → RxStays a.sci a.an mid turns
        → IsCall D.disk late Advances (Advanced (Ok Idle)) new
        → IsBelow new a.sci a.an a.pn }
    ensures stays { (old new : EndpointValue D) (turns : List (Transition D)) (sci : List ℕ)
        (an pn : ℕ) → Lives D.disk old turns new
        → RxStays sci an old turns → IsBelow old sci an pn → IsBelow new sci an pn }
    ensures delivered { (old new : EndpointValue D) (frame out : List ℕ) (a : Arrival)
        → IsBelow old a.sci a.an a.pn
        → Arrives (rx_side (state_of old no_logs)) frame a
        → IsCall D.disk old (Receives frame) (Received (Ok HeldBack) out) new → ⊥ }
{}

/// The most steps that work under way takes.
///
/// From the step that begins it to the one that ends it, both included, there are at most 4; or, if
/// all 256 slots of the journal's current area are used when it begins, 523 plus one for each
/// record of the snapshot. After a `begin` there are at most as many. Any other calls may come
/// between; no device call fails.
pub fn work_ends<D: SectorDisk>()
    ensures stepped { (old begun new : EndpointValue D) (turns : List (Transition D))
        → IsIdle old.store → IsStep D.disk old (Ok Worked) begun → Lives D.disk begun turns new
        → Lasts begun turns → steps_made turns + 1 ≤ most_calls old.store }
    ensures begun { (old begun new : EndpointValue D) (turns : List (Transition D))
        → IsIdle old.store → IsCall D.disk old Advances (Advanced (Ok Worked)) begun
        → Lives D.disk begun turns new → Lasts begun turns
        → steps_made turns ≤ most_calls old.store }
{}

/// A reservation raises the ceiling that was needed first when it began, even if frames arrived
/// meanwhile.
pub fn reserved_as_begun<D: SectorDisk>()
    ensures { (old begun last new : EndpointValue D) (turns : List (Transition D)) (raise : Raise)
        → IsIdle old.store → next_due old ≡ Some (ToRaise raise)
        → IsCall D.disk old Advances (Advanced (Ok Worked)) begun → Lives D.disk begun turns last
        → Lasts begun turns → IsSoundEndpoint last
        → IsCall D.disk last Advances (Advanced (Ok Reserved)) new
        → standing_in new.store ≡ standing_with_raise (standing_in old.store) raise }
{}

/// Between two pending commands at most one reservation has its turn.
///
/// While a command is pending, under way or not, and none is completed, at most one step returns
/// `Reserved` or `GenerationsSpent`, no matter which other calls come between.
pub fn one_reservation_between<D: SectorDisk>()
    ensures { (old new : EndpointValue D) (turns : List (Transition D)) → old.waiting ≢ []
        → Lives D.disk old turns new → NoneDone turns → reservations_made turns ≤ 1 }
{}

/// While a ceiling is needed at most one submitted command is completed before one is raised.
///
/// While some ceiling is needed before each call, no `step` returns `Reserved`, no `rest` returns
/// Ok, and no `step`, `refill` or `rest` returns `GenerationsSpent`, at most one step returns
/// `Done`, no matter which other calls come between.
pub fn one_command_between<D: SectorDisk>()
    ensures { (old new : EndpointValue D) (turns : List (Transition D)) → Lives D.disk old turns new
        → Needs old turns → NoneReserved turns
        → commands_done turns ≤ 1 }
{}

/// A planned end skips no packet number.
///
/// After `rest` returned Ok, each ceiling is the next packet number. As long as that holds, and
/// no device call failed, each image that a power loss leaves has exactly these numbers, so that an
/// opening continues from them.
pub fn rests_skip_no_number<D: SectorDisk>()
    ensures level { (old new : EndpointValue D) → IsCall D.disk old Rests (Rested (Ok tt)) new
        → IsLevel new }
    ensures opens { (e : EndpointValue D) (logs : Logs) (image : Image) → IsLevel e
        → is_stopped e ≡ false → IsBacked D.disk e → MayLeave (disk_in D.disk e) image
        → OpensAt (disk_in D.disk e).sectors image (state_of e logs) }
    ensures skips { (sectors : ℕ) (image : Image) (s : State) (found : Standing) (logs : Logs)
        → OpensAt sectors image s → StandingIs s.edition sectors image (Ok found)
        → SkipsNone s (opened_state found logs) }
{}

/// An endpoint that moves to another disk.
///
/// If no work is under way, and the other disk holds now what its own does, it holds what is in
/// memory: what a power loss leaves there fits the endpoint's state.
pub fn other_disks_back<D: SectorDisk, E: SectorDisk>()
    ensures { (e : EndpointValue D) (device : E) → IsAtRest e → IsBacked D.disk e
        → (E.disk device).sectors ≡ (disk_in D.disk e).sectors
        → now (E.disk device) ≡ now (disk_in D.disk e)
        → IsBacked E.disk (on_device e device) }
{}
