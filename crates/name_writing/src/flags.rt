// The names of modifiers and of keyboard lights: labels with bars between them.
ghost use Rattle.std.specs.Prelude.{◌≡◌, ◌+◌, ◌≤◌, [], length, if◌then◌else◌};
ghost use Rattle.tables.specs.Entries.{entries};
ghost use Rattle.name_writing.specs.Labels.{labels, leds_name, modifier_labels, modifiers_name, room, with_label};
ghost use Rattle.arrayvec.specs.ArrayString.{array_string_len};
ghost use Rattle.name_writing.specs.Written.{written};

use crate::put::put;
use arrayvec::ArrayString;
use input_types::modifiers::{KeyboardLedStatus, Modifiers};
use names::fault::NameFault;
use tables::Named;

// The labels stand in constant tables: names are written without a heap.
// The bits stand as numbers, since `labels` is over numbers and modifiers and lights share it.
static MODIFIER_LABELS: [Named<u16>; 12] = [
    Named("SHIFT", Modifiers::SHIFT.bits),
    Named("ALT", Modifiers::ALT.bits),
    Named("CTRL", Modifiers::CTRL.bits),
    Named("SUPER", Modifiers::SUPER.bits),
    Named("LEFT_ALT", Modifiers::LEFT_ALT.bits),
    Named("RIGHT_ALT", Modifiers::RIGHT_ALT.bits),
    Named("LEADER", Modifiers::LEADER.bits),
    Named("LEFT_CTRL", Modifiers::LEFT_CTRL.bits),
    Named("RIGHT_CTRL", Modifiers::RIGHT_CTRL.bits),
    Named("LEFT_SHIFT", Modifiers::LEFT_SHIFT.bits),
    Named("RIGHT_SHIFT", Modifiers::RIGHT_SHIFT.bits),
    Named("ENHANCED_KEY", Modifiers::ENHANCED_KEY.bits),
];

static LED_LABELS: [Named<u16>; 2] = [
    Named("CAPS_LOCK", KeyboardLedStatus::CAPS_LOCK.bits as u16),
    Named("NUM_LOCK", KeyboardLedStatus::NUM_LOCK.bits as u16),
];

// Adds a label behind those so far.
fn push_label(line: &mut ArrayString<128>, label: &str)
    requires { array_string_len line.old + (length label.now + 1) ≤ 128 }
    ensures text { line.new.bytes ≡ with_label label.now line.old.bytes }
    ensures len { array_string_len line.new ≤ array_string_len line.old + (length label.now + 1) }
{
    if !line.is_empty() {
        line.push('|');
    }
    line.push_str(label);
}

fn joined(table: &[Named<u16>], bits: u16) -> ArrayString<128>
    requires { room (entries table.now) ≤ 128 }
    ensures { result.bytes ≡ labels (entries table.now) bits [] }
{
    let mut line = ArrayString::new();
    for e in table {
        // The `contains` of modifiers and of lights in one, over the bits of either.
        if bits & e.1 == e.1 {
            push_label(&mut line, e.0);
        }
    }
    line
}

// A function for each table: its proof alone unfolds the definition of the table.
fn modifier_labels(bits: u16) -> ArrayString<128>
    ensures { result.bytes ≡ labels modifier_labels bits [] }
{
    joined(&MODIFIER_LABELS, bits)
}

fn led_labels(bits: u16) -> ArrayString<128>
    ensures { result.bytes ≡ leds_name bits }
{
    joined(&LED_LABELS, bits)
}

// Writes the names of modifiers to the front of a buffer, whose rest stays, and answers how many bytes they have.
// Not by `Display`: a name that has no room is refused, and leaves the buffer as it was.
pub fn write_modifiers(modifiers: Modifiers, buffer: &mut [u8]) -> Result<usize, NameFault>
    ensures { (result, buffer.new) ≡ written (modifiers_name modifiers.bits) buffer.old }
{
    if modifiers.bits == 0 {
        return put(buffer, "NONE");
    }
    put(buffer, modifier_labels(modifiers.bits).as_str())
}

// The same of lights.
pub fn write_leds(leds: KeyboardLedStatus, buffer: &mut [u8]) -> Result<usize, NameFault>
    ensures { (result, buffer.new) ≡ written (leds_name leds.bits) buffer.old }
{
    put(buffer, led_labels(leds.bits as u16).as_str())
}
