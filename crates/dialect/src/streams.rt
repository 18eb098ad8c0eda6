// What follows for reports written one after another, in any dialect.
ghost use Rattle.dialect.specs.Streams.{Tells};

use crate::dialect::Dialect;

// The bytes of clear reports, one after another, tell the reports.
pub fn stream_tells<D: Dialect>(d: &D)
    ensures { Tells (D.bytes d.now) }
{
    let _ = d;
}
