// The bare layout: each character is its own base.
ghost use Rattle.std.specs.Prelude.{refl};

use crate::Layout;

#[derive(Clone, Copy, Debug, PartialEq, Eq)]
pub struct Bare;

impl Layout for Bare {
    ghost base = { λ _ c. c };

    ghost settled = { λ _ _. refl };

    ghost kept = { λ _ _ h. h };

    fn base_of(&self, c: char) -> char {
        c
    }
}
