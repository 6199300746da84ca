// Worked values of the definitions, proved by computing them.
#![tactic(auto)]

ghost use Rattle.worked.specs.Worked.{Worked};

// The values hold.
pub fn worked_values()
    ensures { Worked }
{}
