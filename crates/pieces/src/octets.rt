// Reads one byte.
ghost use Rattle.pieces.specs.Octets.{SaysOctet};

use crate::found::Fault;

// The bytes and a place: each clause speaks of the bytes from a place, and a reader that moves would add its former place.
pub fn octet(bytes: &[u8], at: usize) -> Result<u8, Fault>
    ensures { SaysOctet bytes.now at result }
{
    bytes.get(at).copied().ok_or(Fault::Short)
}
