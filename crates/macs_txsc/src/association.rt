//! A transmit association.

ghost use Rattle.std.specs.Prelude.{◌≡◌, ◌≤◌, ◌<◌, ◌+◌, ◌^◌, ◌==◌, ◌∷◌, [], None, Some, IfErr};
ghost use Rattle.std.specs.Prelude.{IfOk, OnOk, length};
ghost use Rattle.macs_config.specs.Association.{is_confidential, offset_of};
ghost use Rattle.macs_fields.specs.Fields.{octets_of};
ghost use Rattle.macs_fields.specs.First.{first};
ghost use Rattle.macs_frame.specs.Protection.{overhead, protected_frame};
ghost use Rattle.macs_frame.specs.declared.tag.SecTag.{SecTag};
ghost use Rattle.macs_txsc.specs.declared.fault.TxFault.TheVariants.{Exhausted, NoNumber};

use crate::fault::TxFault;
use macs_config::Protection;
use macs_frame::{An, FrameBuf, Pn, ScName, Sci, SecTag, seal_next_frame};
use macs_gcm::SealingKey;

/// A transmit association: its key, what it does with User Data, the next packet number, 1 to 2^32,
/// and the ceiling: only numbers below it are used.
#[derive(Drop)]
pub struct Association {
    pub key: SealingKey,
    pub protection: Protection,
    pub next: u64,
    pub ceiling: u64,
    ghost numbered: { 1 ≤ next },
    ghost ordered: { next ≤ ceiling },
    ghost bounded: { ceiling ≤ 2 ^ 32 },
}

impl Association {
    /// The next packet number, or why there is none: all are used, or the next is not reserved.
    pub fn packet_number(&self) -> Result<Pn, TxFault>
        ensures fault { IfErr result (λ fault. first ((Exhausted, self.now.next == 2 ^ 32)
            ∷ (NoNumber, self.now.ceiling == self.now.next) ∷ []) ≡ Some fault) }
        ensures none { OnOk result (first ((Exhausted, self.now.next == 2 ^ 32)
            ∷ (NoNumber, self.now.ceiling == self.now.next) ∷ []) ≡ None) }
        ensures value { IfOk result (λ pn. pn ≡ self.now.next) }
        ensures below { OnOk result (self.now.next < self.now.ceiling) }
    {
        let Some(pn) = u32::try_from(self.next).ok().and_then(Pn::new) else {
            return Err(TxFault::Exhausted);
        };
        if self.next == self.ceiling {
            return Err(TxFault::NoNumber);
        }
        Ok(pn)
    }

    /// Protects a plain frame under the next packet number, which is then used, and returns its
    /// SecTAG. `sci` is that of the transmit channel, `an` the association's number in it, and
    /// `name` how frames name the channel.
    pub fn seal(
        &mut self,
        sci: Sci,
        an: An,
        pn: Pn,
        name: ScName,
        plain: &[u8],
        out: &mut FrameBuf,
    ) -> SecTag
        requires next { pn ≡ self.old.next }
        requires below { self.old.next < self.old.ceiling }
        requires long_enough { 14 ≤ length plain.now }
        requires fits { length plain.now + overhead name ≤ 9216 }
        ensures tag { result ≡ record {
          an = an;
          pn = pn;
          name = name;
          encrypted = is_confidential self.old.protection;
          changed = is_confidential self.old.protection;
        } }
        ensures frame { out.new.items ≡ protected_frame self.old.key sci result
            (octets_of (offset_of self.old.protection)) plain.now }
        ensures next { self.new.next ≡ self.old.next + 1 }
        ensures key { self.new.key ≡ self.old.key }
        ensures protection { self.new.protection ≡ self.old.protection }
        ensures ceiling { self.new.ceiling ≡ self.old.ceiling }
    {
        let is_confidential = self.protection.is_confidential();
        let tag = SecTag {
            an,
            pn,
            name,
            encrypted: is_confidential,
            changed: is_confidential,
        };
        seal_next_frame(
            &mut self.key,
            sci,
            &tag,
            self.protection.offset(),
            plain,
            out,
        );
        self.next += 1;
        tag
    }
}
