//! What a keeper says first.

/// How many octets a greeting has: a word, and a number, most significant octet first.
pub const GREETING: usize = 16;

const WORD: [u8; 8] = *b"MSECKEEP";

/// What a keeper says first.
#[derive(Clone, Copy, Debug, PartialEq, Eq)]
pub struct Greeting {
    /// How many sectors its disk has.
    pub sectors: u64,
}

impl Greeting {
    ghost use Rattle.std.specs.Prelude.{◌≡◌, ◌<◌, ◌^◌, ℕ, IfSome, Some};
    ghost use Rattle.macs_disk.specs.Messages.{greeting_octets};

    /// Its octets.
    pub fn octets(&self) -> [u8; GREETING]
        ensures { result ≡ greeting_octets self.now.sectors }
    {
        let mut octets = [0; GREETING];
        octets[..8].copy_from_slice(&WORD);
        octets[8..].copy_from_slice(&self.sectors.to_be_bytes());
        octets
    }

    /// The greeting with these octets; `None` if they are not one.
    pub fn given(octets: &[u8]) -> Option<Greeting>
        ensures some { IfSome result (λ it. octets.now ≡ greeting_octets it.sectors) }
        ensures found { (sectors : ℕ) → sectors < 2 ^ 64 → octets.now ≡ greeting_octets sectors
            → result ≡ Some (record { sectors = sectors }) }
    {
        let (_, rest) = octets.split_first_chunk::<8>()?;
        let (number, _) = rest.split_first_chunk::<8>()?;
        let greeting = Greeting {
            sectors: u64::from_be_bytes(*number),
        };
        if greeting.octets().as_slice() == octets {
            Some(greeting)
        } else {
            None
        }
    }
}
