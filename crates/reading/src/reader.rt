// What a reader of a dialect is.
ghost use Rattle.reading.specs.Reading.{Fills};

use crate::faults::ReadFault;
use dialect::dialect::Dialect;
use pieces::found::Seen;

pub trait Reader: Dialect {
    // The first clear report of the given bytes; its text goes to the front of `text`, whose rest stays.
    // The caller lends the row of the text, since memory is fixed.
    fn read(&self, given: &[u8], text: &mut [u32]) -> Result<Seen, ReadFault>
        ensures { Fills (Self.Dialect.bytes self.now) given.now text.old text.new result };
}
