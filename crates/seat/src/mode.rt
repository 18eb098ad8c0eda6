// How a change goes on from the setting in force.
ghost use Rattle.std.specs.Prelude.{◌≡◌, ◌<◌, ◌⊎◌, MatchResult};
ghost use Rattle.seat.specs.declared.refusal.Refusal.TheVariants.{Value};
ghost use Rattle.seat.specs.Modes.{mode_number, applied};

use crate::refusal::Refusal;
use input_types::flags::KittyKeyboardFlags;

#[derive(Clone, Copy, Debug, PartialEq, Eq)]
pub(crate) enum Mode {
    Replace,
    Add,
    Clear,
}

impl TryFrom<u32> for Mode {
    type Error = Refusal;

    ghost try_from_gives = { λ n r. MatchResult r (λ m. mode_number m ≡ n) (λ e. (e ≡ Value) × ((n ≡ 0) ⊎ (3 < n))) };

    fn try_from(n: u32) -> Result<Mode, Refusal> {
        match n {
            1 => Ok(Mode::Replace),
            2 => Ok(Mode::Add),
            3 => Ok(Mode::Clear),
            _ => Err(Refusal::Value),
        }
    }
}

impl Mode {
    // The setting to be in force, from the one that is and the one given.
    pub(crate) fn apply(
        self,
        top: KittyKeyboardFlags,
        given: KittyKeyboardFlags,
    ) -> KittyKeyboardFlags
        ensures { result.bits ≡ applied self top.bits given.bits }
    {
        match self {
            Mode::Replace => given,
            Mode::Add => top.union(given),
            Mode::Clear => top.difference(given),
        }
    }
}
