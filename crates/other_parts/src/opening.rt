// A seat over a tray and the French layout, and a list of calls over it: their contracts are what `Seat::open` and
// `replay` promise over every wire and layout.
ghost use Rattle.std.specs.Prelude.{◌≡◌, min, [], length, take, drop};
ghost use Rattle.dialect.specs.KittyBytes.{kitty_bytes};
ghost use Rattle.settings.specs.Rows.{stacks_of};
ghost use Rattle.settings.specs.Stack.{fresh};
ghost use Rattle.plain_seat.specs.Reading.{OneReading};
ghost use Rattle.seat.specs.Seats.{view_of};
ghost use Rattle.script.specs.Scripts.{Replayed};
ghost use Rattle.other_parts.specs.Unshifted.{base_of};

use crate::french::French;
use crate::tray::Tray;
use dialect::dialect::Dialect;
use dialect::kitty::Kitty;
use layout::Layout;
use script::{Call, Finished, replay};
use seat::refusal::Refusal;
use seat::seat::Seat;
use wire::Wire;

// A seat whose history begins.
pub fn open_french() -> Seat<Tray, French, Kitty>
    ensures terms { (view_of ⟦<Tray as Wire>⟧ ⟦<French as Layout>⟧ ⟦<Kitty as Dialect>⟧ result).terms ≡ record { base = base_of; bytes = kitty_bytes; capacity = 64 } }
    ensures stacks { stacks_of result.settings ≡ fresh }
    ensures reading { OneReading (view_of ⟦<Tray as Wire>⟧ ⟦<French as Layout>⟧ ⟦<Kitty as Dialect>⟧ result) [] }
{
    Seat::open(Tray::new(), French, Kitty)
}

// Makes the calls of a list on such a seat, as many as there is room for answers; what is drained stands in the front
// of the buffer.
pub fn replay_french(
    calls: &[Call],
    answers: &mut [Result<usize, Refusal>],
    buffer: &mut [u8],
) -> Finished<Tray, French, Kitty>
    ensures made { result.made ≡ min (length calls.now) (length answers.old) }
    ensures reading { Replayed (view_of ⟦<Tray as Wire>⟧ ⟦<French as Layout>⟧ ⟦<Kitty as Dialect>⟧ result.seat) (length buffer.old) (take result.made calls.now) (take result.made answers.new) (take result.drained buffer.new) }
    ensures answers_rest { drop result.made answers.new ≡ drop result.made answers.old }
    ensures buffer_rest { drop result.drained buffer.new ≡ drop result.drained buffer.old }
{
    replay(Tray::new(), French, Kitty, calls, answers, buffer)
}
