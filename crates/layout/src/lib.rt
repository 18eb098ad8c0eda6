// A layout gives each character the one that its key gives without Shift.
#![tactic(auto)]

ghost use Rattle.std.specs.Prelude.{◌≡◌, ℕ, true};
ghost use Rattle.texts.specs.Texts.{allowed};

pub mod bare;
pub mod us;

pub trait Layout {
    // The base of each character, by their codes.
    ghost base: { Self → ℕ → ℕ };

    fn base_of(&self, c: char) -> char
        ensures { result ≡ base self.now c };

    // The base of a base is itself.
    ghost settled: { (l : Self) (c : ℕ) → base l (base l c) ≡ base l c };

    // No allowed character has a base that stands for another key.
    ghost kept: { (l : Self) (c : ℕ) → allowed c ≡ true → allowed (base l c) ≡ true };
}
