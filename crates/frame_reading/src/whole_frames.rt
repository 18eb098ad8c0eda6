// Reads a clear report of the frames.
ghost use Rattle.frames.specs.Framing.{frame_bytes};
ghost use Rattle.pieces.specs.Reports.{Spoken, Sees};

use crate::bodies::{read_flags, read_text};
use crate::found::{Body, Frame};
use crate::heads::read_head;
use pieces::found::{Fault, Seen};
use report::report::Report;

// The first clear report of the given bytes, and how many bytes it took.
pub fn find(given: &[u8]) -> Result<Seen, Fault>
    ensures { Sees (Spoken frame_bytes) given.now 0 result }
{
    match read_head(given)? {
        Body::Text => read_text(given, 4),
        Body::Answer => read_flags(given, 4),
        Body::Sequence(count) => {
            let told = Frame {
                bytes: given,
                count,
            }
            .parts(4)?;
            Ok(Seen {
                report: Report::Sequence(told.sequence),
                length: told.next,
            })
        }
    }
}
