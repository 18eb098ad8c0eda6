// Makes a sequence of what was read of it.
ghost use Rattle.std.specs.Prelude.{◌≡◌, MatchOption};
ghost use Rattle.report.specs.Meanings.{Sound, characters, fields};
ghost use Rattle.sequences.specs.Leads.{lead};
ghost use Rattle.sequences.specs.Parts.{filled};

use crate::told::Head;
use report::ending::Last;
use report::making::Parts;
use report::sequence::Sequence;
use report::text::Text;

impl Head {
    // The sequence that begins with this, if there is one.
    pub fn into_sequence(self, last: Last, text: Text) -> Option<Sequence>
        ensures { MatchOption result (Sound (filled (lead self) last (characters text)) → ⊥) (λ s. fields s ≡ filled (lead self) last (characters text)) }
    {
        let Head {
            number,
            shifted,
            base,
            sum,
            direction,
        } = self;
        Sequence::try_from(Parts {
            number,
            shifted,
            base,
            sum,
            direction,
            last,
            text,
        })
        .ok()
    }
}
