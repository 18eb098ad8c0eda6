// What a caller keeps of a seat, as plain numbers. Nothing is trusted of them before it is checked.
ghost use Rattle.std.specs.Prelude.{◌≡◌, ◌<◌, ◌≤◌, MatchOption};
ghost use Rattle.seat_state.specs.Telling.{OneSeat, NeverRefused, OnePageSeat, PageNeverRefused};
ghost use Rattle.seat_state.specs.Keeping.{Keeps, NoSeat, KeepsRing, NoRing, KeepsPage};
ghost use Rattle.seat_state.specs.Over.{over};

use crate::known::{AnyDialect, AnyLayout};
use seat::seat::Seat;
use settings::row::Row;
use settings::settings::{Screen, Settings};
use wire::page::Page;
use wire::ring::Ring;

// The layout, the dialect, the shown screen, and the row of each screen: how many settings it holds, and its eight
// places.
#[repr(C)]
#[derive(Clone, Copy, Debug, PartialEq, Eq)]
pub struct Kept {
    pub layout: u32,
    pub dialect: u32,
    pub shown: u32,
    pub main_held: u32,
    pub alternate_held: u32,
    pub main: [u8; 8],
    pub alternate: [u8; 8],
}

// A seat over a ring: where its oldest byte stands in the table, and how many bytes wait.
#[repr(C)]
#[derive(Drop)]
pub struct RingState {
    pub kept: Kept,
    pub head: u32,
    pub count: u32,
    pub table: [u8; 4096],
}

// A seat over a page, which the caller keeps beside it: how many bytes wait.
#[repr(C)]
#[derive(Clone, Copy, Debug, PartialEq, Eq)]
pub struct PageState {
    pub count: usize,
    pub kept: Kept,
}

// What stands over a wire.
#[derive(Clone, Copy)]
pub(crate) struct Upper {
    pub(crate) layout: AnyLayout,
    pub(crate) dialect: AnyDialect,
    pub(crate) settings: Settings,
}

// The numbers of a seat over a ring are that seat's alone, and are never refused; so are those of a seat over a page,
// with the page's bytes.
pub fn numbers_tell()
    ensures alone { OneSeat }
    ensures kept { NeverRefused }
    ensures page_alone { OnePageSeat }
    ensures page_kept { PageNeverRefused }
{}

impl Kept {
    // The layout, the dialect and the settings of these numbers, if there are such.
    pub(crate) fn upper(&self) -> Option<Upper>
        ensures { MatchOption result (NoSeat self.now) (λ u. Keeps self.now u.layout u.dialect u.settings) }
    {
        let layout = AnyLayout::try_from(self.layout).ok()?;
        let dialect = AnyDialect::try_from(self.dialect).ok()?;
        let shown = Screen::try_from(self.shown as usize).ok()?;
        let main = Row::resume(&self.main, self.main_held as usize)?;
        let alternate = Row::resume(&self.alternate, self.alternate_held as usize)?;
        Some(Upper {
            layout,
            dialect,
            settings: Settings::resume(main, alternate, shown),
        })
    }

    fn of(layout: AnyLayout, dialect: AnyDialect, settings: &Settings) -> Kept
        ensures { Keeps result layout dialect settings.now }
    {
        let (main, alternate) = settings.rows();
        Kept {
            layout: layout.into(),
            dialect: dialect.into(),
            shown: settings.shown() as u32,
            main_held: main.held() as u32,
            alternate_held: alternate.held() as u32,
            main: main.numbers(),
            alternate: alternate.numbers(),
        }
    }
}

impl RingState {
    // The seat of these numbers, if there is one.
    pub fn seat(&self) -> Option<Seat<Ring, AnyLayout, AnyDialect>>
        ensures { MatchOption result (NoRing self.now) (λ s. KeepsRing self.now s) }
    {
        let upper = self.kept.upper()?;
        let wire = Ring::resume(&self.table, self.head as usize, self.count as usize)?;
        Some(Seat::resume(wire, upper.layout, upper.dialect, upper.settings))
    }

    // The numbers of a seat.
    pub fn of(seat: &Seat<Ring, AnyLayout, AnyDialect>) -> RingState
        ensures { KeepsRing result seat.now }
    {
        let wire = seat.wire();
        RingState {
            kept: Kept::of(*seat.layout(), *seat.dialect(), seat.settings()),
            head: wire.head() as u32,
            count: wire.len() as u32,
            table: *wire.table(),
        }
    }

    // Keeps the numbers of a seat over the ring in its table, as that stands.
    pub(crate) fn keep(&mut self, upper: &Upper, head: usize, count: usize)
        requires place { head < 4096 }
        requires few { count ≤ 4096 }
        ensures kept { Keeps self.new.kept upper.now.layout upper.now.dialect upper.now.settings }
        ensures head { self.new.head ≡ head }
        ensures count { self.new.count ≡ count }
        ensures table { self.new.table ≡ self.old.table }
    {
        self.kept = Kept::of(upper.layout, upper.dialect, &upper.settings);
        self.head = head as u32;
        self.count = count as u32;
    }
}

impl PageState {
    // The numbers of a seat.
    pub(crate) fn of(wire: &Page, upper: &Upper) -> PageState
        ensures { KeepsPage result wire.now.buffer.now (over wire.now upper.now) }
    {
        PageState {
            count: wire.len(),
            kept: Kept::of(upper.layout, upper.dialect, &upper.settings),
        }
    }
}
