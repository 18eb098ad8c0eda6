// Modifiers from a list of words with bars between them.
ghost use Rattle.std.specs.Prelude.{◌≡◌, ◌+◌, ◌<◌, length};
ghost use Rattle.tables.specs.Tables.{bears, Table};
ghost use Rattle.names.specs.Reads.{of_text};
ghost use Rattle.modifier_names.specs.Words.{words, word_bits, listed};

use input_types::modifiers::Modifiers;
use names::fault::NameFault;
use tables::{Named, find};
use texts::{checked, trimmed};

// In a constant table, since words are read without a heap.
// By bits: `words` lists numbers, which `listed` joins as they are.
const WORDS: [Named<u16>; 11] = [
    Named("SHIFT", Modifiers::SHIFT.bits),
    Named("ALT", Modifiers::ALT.bits),
    Named("OPT", Modifiers::ALT.bits),
    Named("META", Modifiers::ALT.bits),
    Named("CTRL", Modifiers::CTRL.bits),
    Named("SUPER", Modifiers::SUPER.bits),
    Named("CMD", Modifiers::SUPER.bits),
    Named("WIN", Modifiers::SUPER.bits),
    Named("LEADER", Modifiers::LEADER.bits),
    Named("NONE", Modifiers::NONE.bits),
    Named("", Modifiers::NONE.bits),
];

// No word names two modifiers.
pub fn modifier_words_apart()
    ensures { Table words }
{}

fn in_words(word: &str) -> Option<u16>
    ensures { result ≡ bears words word.now }
{
    find(&WORDS, word)
}

// The bits of the word in a part that begins at `from`.
fn word_bits(part: &str, from: usize) -> Result<u16, NameFault>
    requires { from + length part.now < 18446744073709551616 }
    ensures { result ≡ word_bits from part.now }
{
    let (word, indent) = trimmed(part);
    in_words(word).ok_or(NameFault::Unknown(from + indent))
}

fn modifiers_of(list: &str) -> Result<Modifiers, NameFault>
    ensures { result ≡ listed list.now }
{
    let mut bits = 0;
    // Where the part begins, for a refusal: `split` gives no places.
    let mut from = 0;
    for part in list.split('|') {
        bits |= word_bits(part, from)?;
        from = from + part.len() + 1;
    }
    Ok(Modifiers { bits })
}

// The modifiers that a list names.
pub fn read_modifiers(bytes: &[u8]) -> Result<Modifiers, NameFault>
    ensures { result ≡ of_text listed bytes.now }
{
    modifiers_of(checked(bytes)?)
}
