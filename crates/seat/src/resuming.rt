// A seat goes on from its parts, and is taken apart into them.
ghost use Rattle.std.specs.Prelude.{◌≡◌};

use crate::seat::Seat;
use settings::settings::Settings;

impl<W, L, D> Seat<W, L, D> {
    pub fn resume(wire: W, layout: L, dialect: D, settings: Settings) -> Seat<W, L, D>
        ensures { result ≡ record { wire = wire; layout = layout; dialect = dialect; settings = settings } }
    {
        Seat {
            wire,
            layout,
            dialect,
            settings,
        }
    }

    pub fn wire(&self) -> &W
        ensures { result.now ≡ self.now.wire }
    {
        &self.wire
    }

    pub fn layout(&self) -> &L
        ensures { result.now ≡ self.now.layout }
    {
        &self.layout
    }

    pub fn dialect(&self) -> &D
        ensures { result.now ≡ self.now.dialect }
    {
        &self.dialect
    }

    pub fn settings(&self) -> &Settings
        ensures { result.now ≡ self.now.settings }
    {
        &self.settings
    }
}
