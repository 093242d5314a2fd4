//! The cipher: its ten or fourteen rounds (FIPS 197, 5.1, figure 5).

ghost use Rattle.std.specs.Prelude.{◌≡◌};
ghost use Rattle.macs_aes.specs.Cipher.{encrypt};

use crate::Block;
use crate::planes::Planes;
use crate::schedule::Schedule;

/// The block of 16 octets encrypted by AES under the schedule's key (FIPS 197, 5.1). For many
/// blocks, groups of them are much faster: `encrypt16` of `macs_planes`.
pub fn encrypt_block(schedule: &Schedule, block: &Block) -> Block
    ensures { result ≡ encrypt schedule.now block.now }
{
    let rounds = schedule.rounds();
    let mut state = Planes::load(&[*block]);
    state.add_round_key(&schedule.round_key(0));
    for round in 1..rounds {
        state.sub_bytes();
        state.shift_rows();
        state.mix_columns();
        state.add_round_key(&schedule.round_key(round));
    }
    state.sub_bytes();
    state.shift_rows();
    state.add_round_key(&schedule.round_key(rounds));
    let [encrypted] = state.store();
    encrypted
}
