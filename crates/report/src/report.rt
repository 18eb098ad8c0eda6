// The four kinds of report.
use crate::scalar::Scalar;
use crate::sequence::Sequence;
use input_types::flags::KittyKeyboardFlags;

#[derive(Clone, Copy)]
pub enum Report {
    // A character, as text.
    Text(Scalar),
    // A character after ESC, as terminals without the protocol write a key with Alt.
    Old(Scalar),
    // The settings in force, for a program that asked.
    Answer(KittyKeyboardFlags),
    Sequence(Sequence),
}
