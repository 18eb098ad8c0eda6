// Tables: what stands beside a number (specs/Tables.antt), and what bears a name.
#![tactic(auto)]

ghost use Rattle.std.specs.Prelude.{◌≡◌};
ghost use Rattle.tables.specs.Tables.{bears};
ghost use Rattle.tables.specs.Entries.{entries};

// A name, and what bears it.
#[derive(Clone, Copy)]
pub struct Named<T>(pub &'static str, pub T);

// The first of a table that bears a name.
pub fn find<T: Copy>(table: &[Named<T>], name: &str) -> Option<T>
    ensures { result ≡ bears (entries table.now) name.now }
{
    // A loop: with `find` and `map` the proof did not close, nor with clauses at their closures.
    for e in table {
        if e.0 == name {
            return Some(e.1);
        }
    }
    None
}
