// An event that passed the check, with its text read as text once. What it shows is a function of its fields: a type
// that is copied and borrows can have no model.
ghost use Rattle.std.specs.Prelude.{◌≡◌, true};
ghost use Rattle.events.specs.Kinds.{kind_of};
ghost use Rattle.events.specs.Events.{plain_event};
ghost use Rattle.events.specs.Faults.{faultless};
ghost use Rattle.events.specs.Checks.{bytes_of};

use input_types::event::KeyEvent;

#[derive(Clone, Copy)]
pub struct Checked<'a> {
    pub(crate) event: &'a KeyEvent<'a>,
    // The text of a composed key, empty for any other; not in the kind, which is made before the text is checked.
    pub(crate) text: &'a str,
    ghost passed: { faultless (plain_event event.now) ≡ true },
    ghost spelled: { text.now ≡ bytes_of (kind_of event.now.key) },
}
