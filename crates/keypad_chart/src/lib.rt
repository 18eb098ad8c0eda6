// The chart of the keypad: a line for each key, its name, its number with Num Lock and its number without.
#![tactic(auto)]

ghost use Rattle.std.specs.Prelude.{◌≡◌, ◌+◌, ◌≤◌, ◌++◌, length, IsOk};
ghost use Rattle.name_writing.specs.Written.{written};
ghost use Rattle.keypad_chart.specs.Chart.{chart, chart_line};

use arrayvec::ArrayString;
use itoa::Buffer;
use name_writing::put::put;
use names::fault::NameFault;
use names::phys_names::phys_name;
use rules::keypad::{Pad, pads};

// Room for the whole chart: a seat's memory is fixed.
pub const ROOM: usize = 1024;

fn push_line(text: &mut ArrayString<ROOM>, pad: &Pad)
    requires { length text.old.bytes + length (chart_line pad.now) ≤ 1024 }
    ensures { text.new.bytes ≡ text.old.bytes ++ chart_line pad.now }
{
    let mut digits = Buffer::new();
    text.push_str(phys_name(pad.phys));
    text.push(' ');
    text.push_str(digits.format(pad.locked));
    text.push(' ');
    text.push_str(digits.format(pad.unlocked));
    text.push('\n');
}

fn chart_text() -> ArrayString<ROOM>
    ensures { result.bytes ≡ chart }
{
    let mut text = ArrayString::new();
    for pad in &pads() {
        push_line(&mut text, pad);
    }
    text
}

// Writes the chart to the front of a buffer, whose rest stays, and answers how many bytes it has; where it does not
// fit, nothing is written.
pub fn write_chart(buffer: &mut [u8]) -> Result<usize, NameFault>
    ensures written { (result, buffer.new) ≡ written chart buffer.old }
    ensures room { 1024 ≤ length buffer.old → IsOk result }
{
    put(buffer, chart_text().as_str())
}
