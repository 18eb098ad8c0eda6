// The calls of a seat that a caller keeps as numbers. A refusal leaves them as they were.
ghost use Rattle.std.specs.Prelude.{[]};
ghost use Rattle.seat_state.specs.Calls.{RingAnswers, PageAnswers};

use crate::answer::{Answer, NO_STATE};
use crate::kept::{PageState, RingState};
use crate::over::call_over;
use script::Call;
use wire::lent_ring::LentRing;
use wire::page::Page;

// Makes one call of a seat over a ring; what a drain hands over stands at the front of the buffer, whose rest stays.
pub fn ring_call(state: &mut RingState, call: &Call, buffer: &mut [u8]) -> Answer
    ensures { RingAnswers state.old call.now buffer.old result buffer.new state.new }
{
    let Some(mut upper) = state.kept.upper() else {
        return Answer::refused(NO_STATE);
    };
    if state.head >= 4096 || state.count > 4096 {
        return Answer::refused(NO_STATE);
    }
    let (head, count) = (state.head as usize, state.count as usize);
    let mut wire = LentRing::resume(&mut state.table, head, count);
    let made = call_over(&mut wire, &mut upper, call, buffer);
    if made.is_ok() {
        let (head, count) = (wire.head(), wire.len());
        state.keep(&upper, head, count);
    }
    made.into()
}

// The same over a page, of which the state's count says how many bytes wait at its front.
pub fn page_call(state: &mut PageState, page: &mut [u8], call: &Call, buffer: &mut [u8]) -> Answer
    ensures { PageAnswers state.old page.old call.now buffer.old result buffer.new state.new page.new }
{
    let Some(mut upper) = state.kept.upper() else {
        return Answer::refused(NO_STATE);
    };
    if state.count > page.len() {
        return Answer::refused(NO_STATE);
    }
    let mut wire = Page::resume(page, state.count);
    let made = call_over(&mut wire, &mut upper, call, buffer);
    if made.is_ok() {
        *state = PageState::of(&wire, &upper);
    }
    made.into()
}

// The same for a call that hands nothing over.
pub fn ring_ask(state: &mut RingState, call: &Call) -> Answer
    ensures { RingAnswers state.old call.now [] result [] state.new }
{
    ring_call(state, call, &mut [])
}

pub fn page_ask(state: &mut PageState, page: &mut [u8], call: &Call) -> Answer
    ensures { PageAnswers state.old page.old call.now [] result [] state.new page.new }
{
    page_call(state, page, call, &mut [])
}
