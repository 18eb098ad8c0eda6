// What the rules are asked about.
use events::checked::Checked;
use input_types::flags::KittyKeyboardFlags;

// A checked event, and the settings in force. The layout goes beside them, since only the rule of characters asks it: as
// a field it would put its type on every rule.
#[derive(Clone, Copy)]
pub(crate) struct Input<'a> {
    pub(crate) flags: KittyKeyboardFlags,
    pub(crate) key: Checked<'a>,
}
