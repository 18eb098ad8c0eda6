// Opening a seat that a caller keeps as numbers.
ghost use Rattle.seat_state.specs.Opening.{OpensRing, OpensPage};

use crate::answer::{Answer, NO_NUMBER};
use crate::kept::{PageState, RingState};
use crate::known::{AnyDialect, AnyLayout};
use crate::over::open_over;
use seat::seat::Seat;
use wire::page::Page;
use wire::ring::Ring;

// A seat over an empty ring, with fresh settings.
pub fn ring_open(state: &mut RingState, layout: u32, dialect: u32) -> Answer
    ensures { OpensRing layout dialect state.old result state.new }
{
    let Ok(layout) = AnyLayout::try_from(layout) else {
        return Answer::refused(NO_NUMBER);
    };
    let Ok(dialect) = AnyDialect::try_from(dialect) else {
        return Answer::refused(NO_NUMBER);
    };
    *state = RingState::of(&Seat::open(Ring::new(), layout, dialect));
    Answer::done(0)
}

// A seat over an empty page, with fresh settings. The page keeps its bytes.
pub fn page_open(state: &mut PageState, page: &mut [u8], layout: u32, dialect: u32) -> Answer
    ensures { OpensPage layout dialect page.old state.old result state.new page.new }
{
    let Ok(layout) = AnyLayout::try_from(layout) else {
        return Answer::refused(NO_NUMBER);
    };
    let Ok(dialect) = AnyDialect::try_from(dialect) else {
        return Answer::refused(NO_NUMBER);
    };
    let mut wire = Page::new(page);
    let upper = open_over(&mut wire, layout, dialect);
    *state = PageState::of(&wire, &upper);
    Answer::done(0)
}
