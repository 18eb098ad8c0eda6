// The rows of the two screens, and what calls do to the row of the shown one.
ghost use Rattle.std.specs.Prelude.{◌≡◌, ◌≤◌, MatchResult};
ghost use Rattle.settings.specs.Stack.{fresh, in_force, with_row, shown_row, on_screen, pushed, popped, topped};
ghost use Rattle.settings.specs.Rows.{stacks_of, screen_number};

use crate::row::Row;
use input_types::flags::KittyKeyboardFlags;

#[derive(Clone, Copy, Debug, PartialEq, Eq)]
pub enum Screen {
    Main,
    Alternate,
}

// A number that is no screen's.
#[derive(Clone, Copy, Debug, PartialEq, Eq)]
pub struct UnknownScreen(pub usize);

impl TryFrom<usize> for Screen {
    type Error = UnknownScreen;

    ghost try_from_gives = { λ n r. MatchResult r (λ s. screen_number s ≡ n) (λ e. (e.0 ≡ n) × (2 ≤ n)) };

    fn try_from(n: usize) -> Result<Screen, UnknownScreen> {
        match n {
            0 => Ok(Screen::Main),
            1 => Ok(Screen::Alternate),
            _ => Err(UnknownScreen(n)),
        }
    }
}

// No `==` and no model, as `Row` has none.
#[derive(Clone, Copy)]
pub struct Settings {
    pub(crate) rows: [Row; 2],
    pub(crate) shown: Screen,
}

impl Settings {
    // A single 0 for each screen, the main one shown.
    pub fn fresh() -> Settings
        ensures { stacks_of result ≡ fresh }
    {
        Settings {
            rows: [Row::single(); 2],
            shown: Screen::Main,
        }
    }

    pub fn top(&self) -> KittyKeyboardFlags
        ensures { result.bits ≡ in_force (stacks_of self.now) }
    {
        self.rows[self.shown as usize].top()
    }

    pub fn push(&mut self, flags: KittyKeyboardFlags)
        ensures { stacks_of self.new ≡ with_row (stacks_of self.old) (pushed (shown_row (stacks_of self.old)) flags.bits) }
    {
        self.rows[self.shown as usize].push(flags);
    }

    pub fn pop(&mut self, n: usize)
        ensures { stacks_of self.new ≡ with_row (stacks_of self.old) (popped (shown_row (stacks_of self.old)) n) }
    {
        self.rows[self.shown as usize].pop(n);
    }

    pub fn replace(&mut self, flags: KittyKeyboardFlags)
        ensures { stacks_of self.new ≡ with_row (stacks_of self.old) (topped (shown_row (stacks_of self.old)) flags.bits) }
    {
        self.rows[self.shown as usize].replace(flags);
    }

    pub fn show(&mut self, screen: Screen)
        ensures { stacks_of self.new ≡ on_screen (stacks_of self.old) (screen_number screen) }
    {
        self.shown = screen;
    }
}
