// The calls of a seat.
// Settings, counts, modes and screens are whole numbers, so that an unlisted one can come and is refused.
ghost use Rattle.std.specs.Prelude.{◌≡◌, ◌≤◌, [], length, take, drop, MatchResult};
ghost use Rattle.report.specs.Telling.{told_means};
ghost use Rattle.events.specs.Events.{plain_event};
ghost use Rattle.settings.specs.Rows.{stacks_of};
ghost use Rattle.settings.specs.Stack.{fresh};
ghost use Rattle.plain_seat.specs.Plain.{Key, Push, Pop, Set, Screen as Screened, Query, Drain, Done};
ghost use Rattle.plain_seat.specs.Reading.{OneReading, Steps, GoesOn};
ghost use Rattle.seat.specs.declared.refusal.Refusal.TheVariants.{Flags as Unlisted};
ghost use Rattle.seat.specs.Seats.{view_of, counted, plain_reply, Sent};

use crate::mode::Mode;
use crate::refusal::Refusal;
use crate::seat::Seat;
use dialect::dialect::Dialect;
use events::checking::check;
use input_types::event::KeyEvent;
use input_types::flags::KittyKeyboardFlags;
use layout::Layout;
use report::told::Told;
use rules::telling::tell;
use settings::settings::{Screen, Settings};
use wire::Wire;

// Settings from 0 to 31.
fn flags_of(flags: u32) -> Result<KittyKeyboardFlags, Refusal>
    ensures { MatchResult result (λ f. (f.bits ≡ flags) × (flags ≤ 31)) (λ e. (e ≡ Unlisted) × (32 ≤ flags)) }
{
    u16::try_from(flags)
        .ok()
        .and_then(KittyKeyboardFlags::from_bits)
        .ok_or(Refusal::Flags)
}

impl<W: Wire, L: Layout, D: Dialect> Seat<W, L, D> {
    // Hands a report to the wire, whole or not at all.
    fn send(&mut self, report: &Told) -> Result<usize, Refusal>
        ensures sent { Sent (view_of W.Wire L.Layout D.Dialect self.old) (told_means report.now) result (view_of W.Wire L.Layout D.Dialect self.new) }
        ensures keeps { W.keeps self.old.wire self.new.wire }
    {
        let mut room = [0; 512];
        let n = self.dialect.write(report, &mut room);
        self.wire.put(&room[..n])?;
        Ok(n)
    }

    // Opens a seat over any wire; over an empty one its history begins.
    pub fn open(wire: W, layout: L, dialect: D) -> Seat<W, L, D>
        ensures wire { result.wire ≡ wire }
        ensures layout { result.layout ≡ layout }
        ensures dialect { result.dialect ≡ dialect }
        ensures stacks { stacks_of result.settings ≡ fresh }
        ensures reading { W.waiting wire ≡ [] → OneReading (view_of W.Wire L.Layout D.Dialect result) [] }
    {
        Seat {
            wire,
            layout,
            dialect,
            settings: Settings::fresh(),
        }
    }

    // Tells of a key under the setting in force, and answers how many bytes that put on the wire.
    pub fn key<'a>(&mut self, event: &'a KeyEvent<'a>) -> Result<usize, Refusal>
        ensures steps { Steps (view_of W.Wire L.Layout D.Dialect self.old) (Key (plain_event event.now)) (counted result) [] (view_of W.Wire L.Layout D.Dialect self.new) }
        ensures reading { GoesOn (view_of W.Wire L.Layout D.Dialect self.old) (Key (plain_event event.now)) (counted result) [] (view_of W.Wire L.Layout D.Dialect self.new) }
        ensures keeps { W.keeps self.old.wire self.new.wire }
    {
        let key = check(event)?;
        let flags = self.settings.top();
        // No `map_or`: its closure would have to say again what `send` promises of the wire.
        match tell(&self.layout, flags, key) {
            Some(report) => self.send(&report),
            None => Ok(0),
        }
    }

    // One setting more on the shown screen; of eight the oldest goes.
    pub fn push(&mut self, flags: u32) -> Result<(), Refusal>
        ensures steps { Steps (view_of W.Wire L.Layout D.Dialect self.old) (Push flags) (plain_reply result) [] (view_of W.Wire L.Layout D.Dialect self.new) }
        ensures reading { GoesOn (view_of W.Wire L.Layout D.Dialect self.old) (Push flags) (plain_reply result) [] (view_of W.Wire L.Layout D.Dialect self.new) }
        ensures keeps { W.keeps self.old.wire self.new.wire }
    {
        let pushed = flags_of(flags)?;
        self.settings.push(pushed);
        Ok(())
    }

    // n settings less on the shown screen; a single 0 where n reaches the number held.
    pub fn pop(&mut self, n: usize) -> Result<(), Refusal>
        ensures steps { Steps (view_of W.Wire L.Layout D.Dialect self.old) (Pop n) (plain_reply result) [] (view_of W.Wire L.Layout D.Dialect self.new) }
        ensures reading { GoesOn (view_of W.Wire L.Layout D.Dialect self.old) (Pop n) (plain_reply result) [] (view_of W.Wire L.Layout D.Dialect self.new) }
        ensures keeps { W.keeps self.old.wire self.new.wire }
    {
        if n == 0 {
            return Err(Refusal::Value);
        }
        self.settings.pop(n);
        Ok(())
    }

    // Changes the setting in force: mode 1 replaces it, 2 adds bits, 3 clears bits.
    pub fn set(&mut self, flags: u32, mode: u32) -> Result<(), Refusal>
        ensures steps { Steps (view_of W.Wire L.Layout D.Dialect self.old) (Set flags mode) (plain_reply result) [] (view_of W.Wire L.Layout D.Dialect self.new) }
        ensures reading { GoesOn (view_of W.Wire L.Layout D.Dialect self.old) (Set flags mode) (plain_reply result) [] (view_of W.Wire L.Layout D.Dialect self.new) }
        ensures keeps { W.keeps self.old.wire self.new.wire }
    {
        let given = flags_of(flags)?;
        let mode = Mode::try_from(mode)?;
        let top = self.settings.top();
        self.settings.replace(mode.apply(top, given));
        Ok(())
    }

    // Shows the main screen, 0, or the alternate one, 1.
    pub fn screen(&mut self, screen: usize) -> Result<(), Refusal>
        ensures steps { Steps (view_of W.Wire L.Layout D.Dialect self.old) (Screened screen) (plain_reply result) [] (view_of W.Wire L.Layout D.Dialect self.new) }
        ensures reading { GoesOn (view_of W.Wire L.Layout D.Dialect self.old) (Screened screen) (plain_reply result) [] (view_of W.Wire L.Layout D.Dialect self.new) }
        ensures keeps { W.keeps self.old.wire self.new.wire }
    {
        let shown = Screen::try_from(screen).map_err(|_| Refusal::Value)?;
        self.settings.show(shown);
        Ok(())
    }

    // Answers the setting in force, and how many bytes that put on the wire.
    pub fn query(&mut self) -> Result<usize, Refusal>
        ensures steps { Steps (view_of W.Wire L.Layout D.Dialect self.old) Query (counted result) [] (view_of W.Wire L.Layout D.Dialect self.new) }
        ensures reading { GoesOn (view_of W.Wire L.Layout D.Dialect self.old) Query (counted result) [] (view_of W.Wire L.Layout D.Dialect self.new) }
        ensures keeps { W.keeps self.old.wire self.new.wire }
    {
        let flags = self.settings.top();
        self.send(&Told::Answer(flags))
    }

    // Hands over the oldest bytes, and answers how many; the rest of the buffer stays.
    pub fn drain(&mut self, buffer: &mut [u8]) -> usize
        ensures steps { Steps (view_of W.Wire L.Layout D.Dialect self.old) (Drain (length buffer.old)) (Done result) (take result buffer.new) (view_of W.Wire L.Layout D.Dialect self.new) }
        ensures reading { GoesOn (view_of W.Wire L.Layout D.Dialect self.old) (Drain (length buffer.old)) (Done result) (take result buffer.new) (view_of W.Wire L.Layout D.Dialect self.new) }
        ensures keeps { W.keeps self.old.wire self.new.wire }
        ensures rest { drop result buffer.new ≡ drop result buffer.old }
    {
        self.wire.take(buffer)
    }
}
