//! The transmit channel (IEEE Std 802.1AE-2018, 10.5).

ghost use Rattle.std.specs.Prelude.{◌≡◌, ◌≢◌, ◌≤◌, ◌^◌, ◌↔◌, ℕ, [], true, Some, None, IsSome};
ghost use Rattle.std.specs.Prelude.{IfSome, IfOk, IfErr, OnOk, OnErr, Err, ◌+◌, ◌∷◌, ◌&&◌, not};
ghost use Rattle.std.specs.Prelude.{nat_lt, length};
ghost use Rattle.std.specs.Option.{option_map};
ghost use Rattle.macs_aes.specs.Keys.{octets_of_key};
ghost use Rattle.macs_config.specs.Association.{is_end_station, protection_of};
ghost use Rattle.macs_config.specs.Identity.{is_port_one};
ghost use Rattle.macs_config.specs.Tables.{put};
ghost use Rattle.macs_config.specs.declared.command.SciMode.TheVariants.{EndStation};
ghost use Rattle.macs_fields.specs.First.{first};
ghost use Rattle.macs_frame.specs.Protection.{overhead};
ghost use Rattle.macs_frame.specs.Traffic.{traffic_under};
ghost use Rattle.macs_txsc.specs.declared.fault.TxFault.TheVariants.{Runt, TooLong, ForeignSource};
ghost use Rattle.macs_txsc.specs.Transmit.{AreOrdered, Outgoing, all_tx_faults, fault_count};
ghost use Rattle.macs_txsc.specs.Transmit.{frame_of, is_own_source, name_in, need_of, new_tx_side};
ghost use Rattle.macs_txsc.specs.Transmit.{no_counts, next_outgoing, side_after_frame};
ghost use Rattle.macs_txsc.specs.Transmit.{counters_after_answer, next_tag};
ghost use Rattle.macs_txsc.specs.Value.{ceilings_of, counters_of, tx_side_of};

use crate::association::Association;
use crate::counters::TxCounters;
use crate::fault::TxFault;
use macs_aes::Key;
use macs_config::{Protection, SciMode};
use macs_frame::{
    ASSOCIATIONS, An, END_OF_NUMBERS, FrameBuf, MAX_FRAME, MIN_FRAME, Offset, Pn, ScName, Sci,
    SecTag, Traffic,
};
use macs_gcm::SealingKey;

/// A transmit channel: its SCI, how its frames name it, its associations by number, and the one
/// that frames are sent under.
#[derive(Drop)]
pub struct Tx {
    sci: Sci,
    mode: SciMode,
    encoding: Option<An>,
    associations: [Option<Association>; ASSOCIATIONS],
    counters: TxCounters,
}

impl Tx {
    /// A channel without associations, whose frames carry an explicit SCI.
    pub fn new(sci: Sci) -> Tx
        ensures side { tx_side_of result ≡ new_tx_side sci }
        ensures ceilings { ceilings_of result ≡ (λ an. None) }
        ensures counters { counters_of result ≡ no_counts }
    {
        Tx {
            sci,
            mode: SciMode::Explicit,
            encoding: None,
            associations: [None, None, None, None],
            counters: TxCounters::new(),
        }
    }

    /// Sets how frames name the channel. An end station's port is 00-01.
    pub fn set_mode(&mut self, mode: SciMode)
        requires { mode ≡ EndStation → is_port_one (tx_side_of self.old).sci ≡ true }
        ensures side { tx_side_of self.new ≡ record (tx_side_of self.old) { mode = mode } }
        ensures ceilings { ceilings_of self.new ≡ ceilings_of self.old }
        ensures counters { counters_of self.new ≡ counters_of self.old }
    {
        self.mode = mode;
    }

    /// Adds an association at an unused number. `next` is the first packet number that is used, and
    /// only numbers below `ceiling` are: both 1 to 2^32, and `next` at most `ceiling`.
    pub fn install(
        &mut self,
        an: An,
        key: &Key,
        confidential: bool,
        offset: Offset,
        next: u64,
        ceiling: u64,
    )
        requires empty { (tx_side_of self.old).tx an ≡ None }
        requires numbered { 1 ≤ next }
        requires ordered { next ≤ ceiling }
        requires bounded { ceiling ≤ 2 ^ 32 }
        ensures side { tx_side_of self.new ≡ record (tx_side_of self.old) {
          tx = put (tx_side_of self.old).tx an (Some (record {
            key = octets_of_key key.now;
            protection = protection_of confidential offset;
          }));
          next = put (tx_side_of self.old).next an (Some next);
        } }
        ensures ceilings { ceilings_of self.new ≡ put (ceilings_of self.old) an (Some ceiling) }
        ensures counters { counters_of self.new ≡ counters_of self.old }
    {
        self.associations[an.get() as usize] = Some(Association {
            key: SealingKey::new(key),
            protection: Protection::new(confidential, offset),
            next,
            ceiling,
        });
    }

    /// Removes an existing association, which frames are not sent under.
    pub fn remove(&mut self, an: An)
        requires stands { IsSome ((tx_side_of self.old).tx an) }
        requires unused { (tx_side_of self.old).encoding ≢ Some an }
        ensures side { tx_side_of self.new ≡ record (tx_side_of self.old) {
          tx = put (tx_side_of self.old).tx an None;
          next =
              put (tx_side_of self.old).next an None;
        } }
        ensures ceilings { ceilings_of self.new ≡ put (ceilings_of self.old) an None }
        ensures counters { counters_of self.new ≡ counters_of self.old }
    {
        self.associations[an.get() as usize] = None;
    }

    /// Sends frames under this association, which exists, from now on.
    pub fn select(&mut self, an: An)
        requires { IsSome ((tx_side_of self.old).tx an) }
        ensures side { tx_side_of self.new ≡ record (tx_side_of self.old) { encoding = Some an } }
        ensures ceilings { ceilings_of self.new ≡ ceilings_of self.old }
        ensures counters { counters_of self.new ≡ counters_of self.old }
    {
        self.encoding = Some(an);
    }

    /// Lowers the ceiling of each association to its next packet number: none is used until it is
    /// raised again.
    pub fn lower(&mut self)
        ensures side { tx_side_of self.new ≡ tx_side_of self.old }
        ensures ceilings { ceilings_of self.new ≡ (tx_side_of self.old).next }
        ensures counters { counters_of self.new ≡ counters_of self.old }
    {
        let [first, second, third, fourth] = An::all();
        self.lower_at(first);
        self.lower_at(second);
        self.lower_at(third);
        self.lower_at(fourth);
    }

    /// Lowers the ceiling of an association to its next packet number, if there is one.
    fn lower_at(&mut self, an: An)
        ensures side { tx_side_of self.new ≡ tx_side_of self.old }
        ensures ceilings { ceilings_of self.new
            ≡ put (ceilings_of self.old) an ((tx_side_of self.old).next an) }
        ensures few { (other : ℕ) → 4 ≤ other → ((tx_side_of self.old).next other ≡ None)
            × (ceilings_of self.old other ≡ None) }
        ensures counters { counters_of self.new ≡ counters_of self.old }
    {
        if let Some(association) = &mut self.associations[an.get() as usize] {
            association.ceiling = association.next;
        }
    }

    /// Raises the ceiling of an existing association: not below the previous one, and at most 2^32.
    pub fn raise(&mut self, an: An, ceiling: u64)
        requires stands { IsSome ((tx_side_of self.old).tx an) }
        requires higher { IfSome (ceilings_of self.old an) (λ old. old ≤ ceiling) }
        requires bounded { ceiling ≤ 2 ^ 32 }
        ensures side { tx_side_of self.new ≡ tx_side_of self.old }
        ensures ceilings { ceilings_of self.new ≡ put (ceilings_of self.old) an (Some ceiling) }
        ensures counters { counters_of self.new ≡ counters_of self.old }
    {
        if let Some(association) = &mut self.associations[an.get() as usize] {
            association.ceiling = ceiling;
        }
    }

    /// The next packet number of an association, 1 to 2^32, `None` if there is none at that number.
    pub fn next_number(&self, an: An) -> Option<u64>
        ensures { result ≡ (tx_side_of self.now).next an }
    {
        let association = self.associations[an.get() as usize].as_ref()?;
        Some(association.next)
    }

    /// The number of the association whose ceiling must be raised: the one that frames are sent
    /// under, if at most half a block of packet numbers, rounded down, is left below its ceiling,
    /// and the ceiling is less than 2^32. `tx_block` is 1 to 65,536 packet numbers.
    pub fn needs(&self, tx_block: u32) -> Option<An>
        ensures { result ≡ need_of (tx_side_of self.now) (ceilings_of self.now) tx_block }
    {
        let an = self.encoding?;
        let association = self.associations[an.get() as usize].as_ref()?;
        let left = association.ceiling - association.next;
        let is_needed = left <= u64::from(tx_block / 2) && association.ceiling < END_OF_NUMBERS;
        is_needed.then_some(an)
    }

    /// Protects a plain frame, writes the protected frame to `out`, and returns its packet number,
    /// which is then used. If a fault applies, the first one in the order of `TxFault` is returned
    /// instead; then `out` is empty, and no number is used. Each answer is counted.
    pub fn protect(&mut self, plain: &[u8], out: &mut FrameBuf) -> Result<Pn, TxFault>
        ensures fault { (fault : TxFault) → (result ≡ Err fault)
            ↔ (first (all_tx_faults (tx_side_of self.old) (ceilings_of self.old) plain.now)
            ≡ Some fault) }
        ensures number { IfOk result (λ pn.
            option_map (λ (o : Outgoing). o.pn) (next_outgoing (tx_side_of self.old)) ≡ Some pn) }
        ensures frame { OnOk result
            (option_map (λ (o : Outgoing). frame_of (tx_side_of self.old) o plain.now)
            (next_outgoing (tx_side_of self.old)) ≡ Some out.new.items) }
        ensures sent { OnOk result (tx_side_of self.new ≡ side_after_frame (tx_side_of self.old)) }
        ensures same { OnErr result (tx_side_of self.new ≡ tx_side_of self.old) }
        ensures ceilings { ceilings_of self.new ≡ ceilings_of self.old }
        ensures empty { OnErr result (out.new.items ≡ []) }
        ensures counters { counters_of self.new
            ≡ counters_after_answer (next_tag (tx_side_of self.old)) plain.now result
            (counters_of self.old) }
    {
        out.clear();
        match self.send(plain, out) {
            Ok(tag) => {
                self.counters.add_frame(&tag, plain);
                Ok(tag.pn)
            }
            Err(fault) => {
                self.counters.add_fault(fault);
                Err(fault)
            }
        }
    }

    /// How many frames met this fault, at most 2^64 - 1.
    pub fn fault_count(&self, fault: TxFault) -> u64
        ensures { result ≡ fault_count fault (counters_of self.now) }
    {
        self.counters.fault_count(fault)
    }

    /// What the frames carried that were protected under an association number, since the channel
    /// was made.
    pub fn traffic(&self, an: An) -> Traffic
        ensures { result ≡ traffic_under (counters_of self.now).traffic an }
    {
        self.counters.traffic.of(an)
    }

    /// How many frames were protected, at most 2^64 - 1.
    pub fn protected_count(&self) -> u64
        ensures { result ≡ (counters_of self.now).protected }
    {
        self.counters.protected
    }

    /// For proofs, does nothing: each association has a next number, 1 to 2^32, that is not above
    /// its ceiling, which is at most 2^32.
    pub fn facts(&self)
        ensures { (an : ℕ) → AreOrdered (tx_side_of self.now) (ceilings_of self.now) an }
    {}

    /// Protects a plain frame as `protect` does, returns its SecTAG, and counts nothing. After a
    /// fault `out` is unchanged.
    fn send(&mut self, plain: &[u8], out: &mut FrameBuf) -> Result<SecTag, TxFault>
        ensures fault { IfErr result
            (λ fault. first (all_tx_faults (tx_side_of self.old) (ceilings_of self.old) plain.now)
            ≡ Some fault) }
        ensures none { OnOk result
            (first (all_tx_faults (tx_side_of self.old) (ceilings_of self.old) plain.now) ≡ None) }
        ensures tag { IfOk result (λ tag. next_tag (tx_side_of self.old) ≡ Some tag) }
        ensures frame { OnOk result
            (option_map (λ (o : Outgoing). frame_of (tx_side_of self.old) o plain.now)
            (next_outgoing (tx_side_of self.old)) ≡ Some out.new.items) }
        ensures sent { OnOk result (tx_side_of self.new ≡ side_after_frame (tx_side_of self.old)) }
        ensures same { OnErr result (tx_side_of self.new ≡ tx_side_of self.old) }
        ensures ceilings { ceilings_of self.new ≡ ceilings_of self.old }
        ensures untouched { OnErr result (out.new.items ≡ out.old.items) }
        ensures counters { counters_of self.new ≡ counters_of self.old }
    {
        if let Some(fault) = self.frame_fault(plain) {
            return Err(fault);
        }
        let name = self.name();
        let Some(an) = self.encoding else {
            return Err(TxFault::NoEncodingSa);
        };
        let Some(association) = &mut self.associations[an.get() as usize] else {
            return Err(TxFault::NoEncodingSa);
        };
        let pn = association.packet_number()?;
        Ok(association.seal(self.sci, an, pn, name, plain, out))
    }

    /// How a SecTAG names the channel (9.5, 9.9).
    fn name(&self) -> ScName
        ensures { result ≡ name_in self.now.mode self.now.sci }
    {
        match self.mode {
            SciMode::Explicit => ScName::Explicit(self.sci),
            SciMode::EndStation => ScName::EndStation,
            SciMode::Implicit => ScName::Implicit,
        }
    }

    /// Whether the source address of a plain frame is the one in the SCI.
    fn is_own_source(&self, plain: &[u8]) -> bool
        requires { 14 ≤ length plain.now }
        ensures { result ≡ is_own_source self.now.sci plain.now }
    {
        plain[6..12] == self.sci.get()[..6]
    }

    /// The first fault of a plain frame that does not concern an association.
    fn frame_fault(&self, plain: &[u8]) -> Option<TxFault>
        ensures { result ≡ first (
            (Runt, nat_lt (length plain.now) 14)
            ∷ (
              TooLong,
              nat_lt 9216 (length plain.now + overhead (name_in self.now.mode self.now.sci)),
            )
            ∷ (
              ForeignSource,
              is_end_station self.now.mode
                  && not (is_own_source self.now.sci plain.now),
            )
            ∷ []) }
    {
        if plain.len() < MIN_FRAME {
            Some(TxFault::Runt)
        } else if plain.len() > MAX_FRAME - self.name().overhead() {
            Some(TxFault::TooLong)
        } else if self.mode == SciMode::EndStation && !self.is_own_source(plain) {
            Some(TxFault::ForeignSource)
        } else {
            None
        }
    }
}
