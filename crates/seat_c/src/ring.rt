// A seat over a ring, whose table is in the state.
ghost use Rattle.std.specs.Prelude.{[], length};
ghost use Rattle.script.specs.declared.Call.TheVariants.{Push as Pushes, Pop as Pops, Set as Sets, Screen as Screens, Query as Queries, Drain as Drains};
ghost use Rattle.event_numbers.specs.Events.{event_by};
ghost use Rattle.seat_state.specs.Calls.{RingAnswers};
ghost use Rattle.seat_state.specs.Opening.{OpensRing};
ghost use Rattle.seat_c.specs.Keys.{KeyOverRing};

use event_numbers::events::{EventNumbers, event_by};
use script::Call;
use seat_state::answer::{Answer, NO_NUMBER};
use seat_state::calls::{ring_ask, ring_call};
use seat_state::kept::RingState;
use seat_state::opening::ring_open;

// Opens a seat over an empty ring.
#[unsafe(no_mangle)]
pub extern "C" fn seat_ring_open(state: &mut RingState, layout: u32, dialect: u32) -> Answer
    ensures { OpensRing layout dialect state.old result state.new }
{
    ring_open(state, layout, dialect)
}

// Tells of a key; `text` is that of a composed key, and `raw_text` that of a composed raw key.
#[unsafe(no_mangle)]
pub extern "C" fn seat_ring_key(
    state: &mut RingState,
    event: &EventNumbers,
    text: &[u8],
    raw_text: &[u8],
) -> Answer
    ensures { KeyOverRing (event_by event.now text.entry raw_text.entry) state.old result state.new }
{
    match event_by(event, text, raw_text) {
        Some(event) => ring_ask(state, &Call::Key(event)),
        None => Answer::refused(NO_NUMBER),
    }
}

// One setting more on the shown screen.
#[unsafe(no_mangle)]
pub extern "C" fn seat_ring_push(state: &mut RingState, flags: u32) -> Answer
    ensures { RingAnswers state.old (Pushes flags) [] result [] state.new }
{
    ring_ask(state, &Call::Push(flags))
}

// So many settings less on the shown screen.
#[unsafe(no_mangle)]
pub extern "C" fn seat_ring_pop(state: &mut RingState, count: usize) -> Answer
    ensures { RingAnswers state.old (Pops count) [] result [] state.new }
{
    ring_ask(state, &Call::Pop(count))
}

// Changes the setting in force.
#[unsafe(no_mangle)]
pub extern "C" fn seat_ring_set(state: &mut RingState, flags: u32, mode: u32) -> Answer
    ensures { RingAnswers state.old (Sets flags mode) [] result [] state.new }
{
    ring_ask(state, &Call::Set(flags, mode))
}

// Shows the main screen, 0, or the alternate one, 1.
#[unsafe(no_mangle)]
pub extern "C" fn seat_ring_screen(state: &mut RingState, screen: usize) -> Answer
    ensures { RingAnswers state.old (Screens screen) [] result [] state.new }
{
    ring_ask(state, &Call::Screen(screen))
}

// Answers the setting in force.
#[unsafe(no_mangle)]
pub extern "C" fn seat_ring_query(state: &mut RingState) -> Answer
    ensures { RingAnswers state.old Queries [] result [] state.new }
{
    ring_ask(state, &Call::Query)
}

// Hands over the oldest bytes, to the front of the buffer, whose rest stays.
#[unsafe(no_mangle)]
pub extern "C" fn seat_ring_drain(state: &mut RingState, buffer: &mut [u8]) -> Answer
    ensures { RingAnswers state.old (Drains (length buffer.old)) buffer.old result buffer.new state.new }
{
    let room = buffer.len();
    ring_call(state, &Call::Drain(room), buffer)
}
