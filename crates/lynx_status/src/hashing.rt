//! A number by which people tell sets apart.
ghost use Rattle.std.specs.Prelude.{◌≡◌};
ghost use Rattle.lynx_status.specs.SetHash.{set_hash};

/// The prime of FNV-1a at 64 bits.
const PRIME: u64 = 0x100_0000_01b3;

/// What it begins with.
const OFFSET: u64 = 0xcbf2_9ce4_8422_2325;

/// The hash of the text of a set: FNV-1a at 64 bits. Sets that differ may have the same one, and it
/// is no proof of anything.
pub fn set_hash(text: &[u8]) -> u64
    ensures { result ≡ set_hash text.now }
{
    let mut hash = OFFSET;
    for byte in text {
        hash = (hash ^ u64::from(*byte)).wrapping_mul(PRIME);
    }
    hash
}
