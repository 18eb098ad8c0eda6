// What a dialect is: the bytes of each report, such that no clear report's bytes begin another's.
ghost use Rattle.std.specs.Prelude.{◌≡◌, ℕ, ◌≤◌, List, ◌++◌, length, drop};
ghost use Rattle.report.specs.Meanings.{Meaning, Valid, Clear};
ghost use Rattle.report.specs.Telling.{told_means};

use report::told::Told;

pub trait Dialect {
    // The bytes of a report.
    ghost bytes: { Self → Meaning → List ℕ };

    // Writes the report's bytes to the front of `out`, whose rest stays, and answers how many. The caller lends the
    // row, so that 512 bytes are neither allocated nor copied.
    fn write(&self, report: &Told, out: &mut [u8; 512]) -> usize
        ensures count { result ≡ length (bytes self.now (told_means report.now)) }
        ensures after { out.new ≡ bytes self.now (told_means report.now) ++ drop result out.old };

    ghost sized: { (d : Self) (m : Meaning) → Valid m → (1 ≤ length (bytes d m)) × (length (bytes d m) ≤ 512) };

    ghost apart: { (d : Self) (m n : Meaning) (t : List ℕ) → Valid m → Clear m → Valid n → Clear n → bytes d m ++ t ≡ bytes d n → m ≡ n };
}
