// Reads the length and the kind of a frame.
ghost use Rattle.std.specs.Prelude.{◌≡◌, MatchOption, ◌≢◌};
ghost use Rattle.frame_reading.specs.declared.found.Body.{Body as Held};
ghost use Rattle.frame_reading.specs.Heads.{Fits, length_of, kind_of, SaysHead};

use crate::found::Body;
use frames::frames::FrameKind;
use pieces::found::Fault;
use pieces::octets::octet;

// What a frame of that length holds, if a clear report has such a frame.
fn body_of(length: u8) -> Option<Body>
    ensures { MatchOption result ((b : Held) → Fits b → length_of b ≢ length) (λ b. Fits b × (length_of b ≡ length)) }
{
    match length {
        3 => Some(Body::Answer),
        6 => Some(Body::Text),
        18..=146 if (length - 18) % 4 == 0 => Some(Body::Sequence((length - 18) / 4)),
        _ => None,
    }
}

// Not by a cast of the body itself: an enum with a field in a variant has none.
fn kind_of(body: Body) -> u8
    ensures { result ≡ kind_of body }
{
    let kind = match body {
        Body::Text => FrameKind::Text,
        Body::Answer => FrameKind::Answer,
        Body::Sequence(_) => FrameKind::Sequence,
    };
    kind as u8
}

pub(crate) fn read_head(given: &[u8]) -> Result<Body, Fault>
    ensures { SaysHead given.now result }
{
    let length = octet(given, 0)?;
    let Some(body) = body_of(length) else {
        return Err(Fault::Unknown);
    };
    let head = [length, 0, kind_of(body), 0];
    if given.starts_with(&head) {
        Ok(body)
    } else if head.starts_with(given) {
        Err(Fault::Short)
    } else {
        Err(Fault::Unknown)
    }
}
