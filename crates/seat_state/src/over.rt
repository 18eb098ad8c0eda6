// A seat over a wire that is lent to it for one call. Generic in the wire: a page is itself a loan, and of a loan that is
// moved into a seat its caller would not learn what lies behind it at the end.
ghost use Rattle.std.specs.Prelude.{◌≡◌, []};
ghost use Rattle.plain_seat.specs.Reading.{OneReading};
ghost use Rattle.seat.specs.Seats.{view_of};
ghost use Rattle.seat_state.specs.Over.{over};
ghost use Rattle.seat_state.specs.Calls.{Made};

use crate::kept::Upper;
use crate::known::{AnyDialect, AnyLayout};
use dialect::dialect::Dialect;
use layout::Layout;
use script::{Call, make};
use seat::refusal::Refusal;
use seat::seat::Seat;
use wire::Wire;

fn above<W>(seat: &Seat<W, AnyLayout, AnyDialect>) -> Upper
    ensures { over seat.now.wire result ≡ seat.now }
{
    Upper {
        layout: *seat.layout(),
        dialect: *seat.dialect(),
        settings: *seat.settings(),
    }
}

// Opens a seat, and answers what stands over the wire then.
pub(crate) fn open_over<W: Wire>(wire: &mut W, layout: AnyLayout, dialect: AnyDialect) -> Upper
    ensures same { wire.new ≡ wire.old }
    ensures layout { result.layout ≡ layout }
    ensures dialect { result.dialect ≡ dialect }
    ensures reading { W.waiting wire.old ≡ [] → OneReading (view_of W.Wire ⟦<AnyLayout as Layout>⟧ ⟦<AnyDialect as Dialect>⟧ (over wire.new result)) [] }
{
    above(&Seat::open(wire, layout, dialect))
}

// Makes one call, and leaves what stands over the wire then.
pub(crate) fn call_over<W: Wire>(
    wire: &mut W,
    upper: &mut Upper,
    call: &Call,
    buffer: &mut [u8],
) -> Result<usize, Refusal>
    ensures made { Made (view_of W.Wire ⟦<AnyLayout as Layout>⟧ ⟦<AnyDialect as Dialect>⟧ (over wire.old upper.old)) call.now buffer.old result buffer.new (view_of W.Wire ⟦<AnyLayout as Layout>⟧ ⟦<AnyDialect as Dialect>⟧ (over wire.new upper.new)) }
    ensures keeps { W.keeps wire.old wire.new }
{
    let mut seat = Seat::resume(wire, upper.layout, upper.dialect, upper.settings);
    let made = make(&mut seat, call, buffer);
    *upper = above(&seat);
    made
}
