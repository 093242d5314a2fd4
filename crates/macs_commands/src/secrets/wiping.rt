//! Octets that are overwritten once they are used.

ghost use Rattle.std.specs.Prelude.{◌≡◌, length, replicate};

/// No file.
const NO_FILE: i32 = -1;

/// Overwrites octets with zeros, then hands them to a `write` without a file, which fails at once:
/// so the compiler may not leave the zeros out.
pub fn wipe(octets: &mut [u8])
    ensures { octets.new ≡ replicate (length octets.old) 0 }
{
    octets.fill(0);
    let _ = libc::write(NO_FILE, octets);
}

/// Octets that are overwritten when they are dropped.
pub struct SecretOctets(pub Vec<u8>);

impl Drop for SecretOctets {
    fn drop(self) {
        let SecretOctets(mut octets) = self;
        wipe(octets.as_mut_slice());
    }
}

/// A text that is overwritten when it is dropped.
pub struct SecretText(pub String);

impl Drop for SecretText {
    fn drop(self) {
        let SecretText(text) = self;
        let _octets = SecretOctets(text.into_bytes());
    }
}
