// A seat over a wire, a layout and a dialect. What it shows, `view_of`, holds functions, so that it cannot be a model.
use settings::settings::Settings;

#[derive(Drop)]
pub struct Seat<W, L, D> {
    pub(crate) wire: W,
    pub(crate) layout: L,
    pub(crate) dialect: D,
    pub(crate) settings: Settings,
}
