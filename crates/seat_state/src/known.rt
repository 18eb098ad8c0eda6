// The layouts and the dialects that a number can name, each as one type, so that a seat over them has one type too.
ghost use Rattle.std.specs.Prelude.{◌≡◌, ◌≤◌, ◌++◌, length, drop, MatchResult};
ghost use Rattle.report.specs.Telling.{told_means};
ghost use Rattle.frames.specs.Framing.{frame_bytes};
ghost use Rattle.seat_state.specs.Known.{layout_number, base_in, settles, keeps, dialect_number, bytes_in, sizes, parts};

use dialect::dialect::Dialect;
use dialect::kitty::Kitty as KittyBytes;
use frames::frames::Frames as FrameBytes;
use layout::Layout;
use layout::us::us_layout_unshift;
use pieces::found::Seen;
use reading::faults::ReadFault;
use reading::reader::Reader;
use report::told::Told;

#[derive(Clone, Copy, Debug, PartialEq, Eq)]
pub enum AnyLayout {
    Us,
    Bare,
}

#[derive(Clone, Copy, Debug, PartialEq, Eq)]
pub enum AnyDialect {
    Kitty,
    Frames,
}

// A number that names none.
#[derive(Clone, Copy, Debug, PartialEq, Eq)]
pub struct Unknown(pub u32);

impl TryFrom<u32> for AnyLayout {
    type Error = Unknown;

    ghost try_from_gives = { λ n r. MatchResult r (λ l. layout_number l ≡ n) (λ e. (e.0 ≡ n) × (2 ≤ n)) };

    #[inline(always)]
    fn try_from(n: u32) -> Result<AnyLayout, Unknown> {
        match n {
            0 => Ok(AnyLayout::Us),
            1 => Ok(AnyLayout::Bare),
            _ => Err(Unknown(n)),
        }
    }
}

impl From<AnyLayout> for u32 {
    ghost from_gives = { λ l n. n ≡ layout_number l };

    fn from(layout: AnyLayout) -> u32 {
        layout as u32
    }
}

impl Layout for AnyLayout {
    ghost base = { base_in };

    ghost settled = { settles };

    ghost kept = { keeps };

    #[inline(always)]
    fn base_of(&self, c: char) -> char {
        match self {
            AnyLayout::Us => us_layout_unshift(c),
            AnyLayout::Bare => c,
        }
    }
}

impl TryFrom<u32> for AnyDialect {
    type Error = Unknown;

    ghost try_from_gives = { λ n r. MatchResult r (λ d. dialect_number d ≡ n) (λ e. (e.0 ≡ n) × (2 ≤ n)) };

    fn try_from(n: u32) -> Result<AnyDialect, Unknown> {
        match n {
            0 => Ok(AnyDialect::Kitty),
            1 => Ok(AnyDialect::Frames),
            _ => Err(Unknown(n)),
        }
    }
}

impl From<AnyDialect> for u32 {
    ghost from_gives = { λ d n. n ≡ dialect_number d };

    fn from(dialect: AnyDialect) -> u32 {
        dialect as u32
    }
}

// By value: what lends its address out would stand in memory for the other dialect too.
#[inline(never)]
fn write_frame(report: Told, out: &mut [u8; 512]) -> usize
    ensures count { result ≡ length (frame_bytes (told_means report.entry)) }
    ensures after { out.new ≡ frame_bytes (told_means report.entry) ++ drop result out.old }
{
    FrameBytes.write(&report, out)
}

impl Dialect for AnyDialect {
    ghost bytes = { bytes_in };

    ghost sized = { sizes };

    ghost apart = { parts };

    #[inline(always)]
    fn write(&self, report: &Told, out: &mut [u8; 512]) -> usize {
        match self {
            AnyDialect::Kitty => KittyBytes.write(report, out),
            AnyDialect::Frames => write_frame(*report, out),
        }
    }
}

impl Reader for AnyDialect {
    fn read(&self, given: &[u8], text: &mut [u32]) -> Result<Seen, ReadFault> {
        match self {
            AnyDialect::Kitty => KittyBytes.read(given, text),
            AnyDialect::Frames => FrameBytes.read(given, text),
        }
    }
}
