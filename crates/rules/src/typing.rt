// The letters that a key types, without control codes.
ghost use Rattle.std.specs.Prelude.{◌≡◌, ◌≤◌, length};
ghost use Rattle.std.specs.Str.{chars};
ghost use Rattle.report.specs.Letters.{shown, spelled};
ghost use Rattle.events.specs.Passed.{event_of};
ghost use Rattle.rules.specs.Typed.{text_of, typed};

use crate::input::Input;
use events::checked::Checked;
use events::kind::Kind;
use input_types::flags::KittyKeyboardFlags;
use report::letters::{Letters, Spelling};

// Few is a premise: that an event passed the check says it of its text.
#[inline(always)]
fn composed<'a>(text: &'a str) -> Letters<'a>
    requires { length (chars text.now) ≤ 32 }
    ensures { spelled result.spelling ≡ shown (chars text.now) }
{
    Letters {
        spelling: Spelling::Text(text),
    }
}

#[inline(always)]
fn letters_of<'a>(key: Checked<'a>) -> Letters<'a>
    ensures { spelled result.spelling ≡ shown (text_of (event_of key.entry).key.kind) }
{
    match key.kind() {
        Kind::Char(c) => Letters::one(c),
        Kind::Numpad(n) => Letters::one((b'0' + n) as char),
        Kind::Composed(_) => composed(key.text()),
        _ => Letters::none(),
    }
}

impl<'a> Input<'a> {
    // The text of a press, where associated text is asked for.
    #[inline(always)]
    pub(crate) fn typed_letters(&self) -> Letters<'a>
        ensures { spelled result.spelling ≡ typed self.now.flags.bits (event_of self.now.key).down (event_of self.now.key).key.kind }
    {
        if self.key.is_down()
            && self
                .flags
                .contains(KittyKeyboardFlags::REPORT_ASSOCIATED_TEXT)
        {
            letters_of(self.key)
        } else {
            Letters::none()
        }
    }
}
