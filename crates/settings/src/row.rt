// One to eight settings, the last in force: an array and a count, which are copied and allocate nothing.
ghost use Rattle.std.specs.Prelude.{◌≡◌, ◌≤◌, [], ◌∷◌};
ghost use Rattle.settings.specs.Stack.{top_of, pushed, popped, topped};

use input_types::flags::KittyKeyboardFlags;

// No `==` and no model: two rows that hold the same settings may differ in the places beyond.
#[derive(Clone, Copy)]
pub struct Row {
    pub(crate) settings: [KittyKeyboardFlags; 8],
    pub(crate) held: usize,
    ghost some: { 1 ≤ held },
    ghost most: { held ≤ 8 },
}

impl Row {
    ghost use Rattle.settings.specs.Rows.{stack_of};

    // A single setting, 0.
    pub fn single() -> Row
        ensures { stack_of result ≡ 0 ∷ [] }
    {
        Row {
            settings: [KittyKeyboardFlags::NONE; 8],
            held: 1,
        }
    }

    pub fn top(&self) -> KittyKeyboardFlags
        ensures { result.bits ≡ top_of (stack_of self.now) }
    {
        self.settings[self.held - 1]
    }

    // One setting more; of eight the oldest goes.
    pub fn push(&mut self, flags: KittyKeyboardFlags)
        ensures { stack_of self.new ≡ pushed (stack_of self.old) flags.bits }
    {
        if self.held < 8 {
            self.held += 1;
        } else {
            self.settings.copy_within(1.., 0);
        }
        self.settings[self.held - 1] = flags;
    }

    // n settings less; a single 0 where n reaches the number held.
    pub fn pop(&mut self, n: usize)
        ensures { stack_of self.new ≡ popped (stack_of self.old) n }
    {
        if n < self.held {
            self.held -= n;
        } else {
            *self = Row::single();
        }
    }

    // Another setting in the place of the last.
    pub fn replace(&mut self, flags: KittyKeyboardFlags)
        ensures { stack_of self.new ≡ topped (stack_of self.old) flags.bits }
    {
        self.settings[self.held - 1] = flags;
    }
}
