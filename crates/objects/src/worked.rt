// A small chart, and what follows from the rules for it.
ghost use Rattle.std.specs.Prelude.{◌≡◌};
ghost use Rattle.tables.specs.Drawing.{undrawn, with_states};
ghost use Rattle.tables.specs.Tables.{drawing};
ghost use Rattle.objects.specs.Worked.{five_states, WorkedCases};

use tables::tables::Tables;

// States 1 (top, initial 2), 2 in 1, 3 in 1 (initial 4), 4 in 3, 5 (top); nothing is sent.
pub fn five_states() -> Tables
    ensures chart { drawing result ≡ with_states undrawn five_states }
    ensures cases { WorkedCases (drawing result).states }
{
    let mut tables = Tables::new();
    let _ = tables.add_state(0, 0, 0);
    let _ = tables.add_state(1, 0, 0);
    let _ = tables.add_state(1, 0, 0);
    let _ = tables.add_state(3, 0, 0);
    let _ = tables.add_state(0, 0, 0);
    let _ = tables.set_initial(1, 2);
    let _ = tables.set_initial(3, 4);
    tables
}
