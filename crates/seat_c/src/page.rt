// A seat over a page that the caller lends at each call.
ghost use Rattle.std.specs.Prelude.{[], length};
ghost use Rattle.script.specs.declared.Call.TheVariants.{Push as Pushes, Pop as Pops, Set as Sets, Screen as Screens, Query as Queries, Drain as Drains};
ghost use Rattle.event_numbers.specs.Events.{event_by};
ghost use Rattle.seat_state.specs.Calls.{PageAnswers};
ghost use Rattle.seat_state.specs.Opening.{OpensPage};
ghost use Rattle.seat_c.specs.Keys.{KeyOverPage};

use event_numbers::events::{EventNumbers, event_by};
use script::Call;
use seat_state::answer::{Answer, NO_NUMBER};
use seat_state::calls::{page_ask, page_call};
use seat_state::kept::PageState;
use seat_state::opening::page_open;

// Opens a seat over an empty page.
#[unsafe(no_mangle)]
pub extern "C" fn seat_page_open(
    state: &mut PageState,
    page: &mut [u8],
    layout: u32,
    dialect: u32,
) -> Answer
    ensures { OpensPage layout dialect page.old state.old result state.new page.new }
{
    page_open(state, page, layout, dialect)
}

// Tells of a key; `text` is that of a composed key, and `raw_text` that of a composed raw key.
#[unsafe(no_mangle)]
pub extern "C" fn seat_page_key(
    state: &mut PageState,
    page: &mut [u8],
    event: &EventNumbers,
    text: &[u8],
    raw_text: &[u8],
) -> Answer
    ensures { KeyOverPage (event_by event.now text.entry raw_text.entry) state.old page.old result state.new page.new }
{
    match event_by(event, text, raw_text) {
        Some(event) => page_ask(state, page, &Call::Key(event)),
        None => Answer::refused(NO_NUMBER),
    }
}

// One setting more on the shown screen.
#[unsafe(no_mangle)]
pub extern "C" fn seat_page_push(state: &mut PageState, page: &mut [u8], flags: u32) -> Answer
    ensures { PageAnswers state.old page.old (Pushes flags) [] result [] state.new page.new }
{
    page_ask(state, page, &Call::Push(flags))
}

// So many settings less on the shown screen.
#[unsafe(no_mangle)]
pub extern "C" fn seat_page_pop(state: &mut PageState, page: &mut [u8], count: usize) -> Answer
    ensures { PageAnswers state.old page.old (Pops count) [] result [] state.new page.new }
{
    page_ask(state, page, &Call::Pop(count))
}

// Changes the setting in force.
#[unsafe(no_mangle)]
pub extern "C" fn seat_page_set(
    state: &mut PageState,
    page: &mut [u8],
    flags: u32,
    mode: u32,
) -> Answer
    ensures { PageAnswers state.old page.old (Sets flags mode) [] result [] state.new page.new }
{
    page_ask(state, page, &Call::Set(flags, mode))
}

// Shows the main screen, 0, or the alternate one, 1.
#[unsafe(no_mangle)]
pub extern "C" fn seat_page_screen(state: &mut PageState, page: &mut [u8], screen: usize) -> Answer
    ensures { PageAnswers state.old page.old (Screens screen) [] result [] state.new page.new }
{
    page_ask(state, page, &Call::Screen(screen))
}

// Answers the setting in force.
#[unsafe(no_mangle)]
pub extern "C" fn seat_page_query(state: &mut PageState, page: &mut [u8]) -> Answer
    ensures { PageAnswers state.old page.old Queries [] result [] state.new page.new }
{
    page_ask(state, page, &Call::Query)
}

// Hands over the oldest bytes, to the front of the buffer, whose rest stays.
#[unsafe(no_mangle)]
pub extern "C" fn seat_page_drain(
    state: &mut PageState,
    page: &mut [u8],
    buffer: &mut [u8],
) -> Answer
    ensures { PageAnswers state.old page.old (Drains (length buffer.old)) buffer.old result buffer.new state.new page.new }
{
    let room = buffer.len();
    page_call(state, page, &Call::Drain(room), buffer)
}
