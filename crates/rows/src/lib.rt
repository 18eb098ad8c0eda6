// Worked rows: what some events send on a US keyboard, and what some names read as.
#![tactic(auto)]

ghost use Rattle.rows.specs.Rows.{Rows};

// Each row follows from the definitions of the check, the rules, the dialect and the names.
pub fn rows_stand()
    ensures { Rows }
{}
