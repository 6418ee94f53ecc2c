// The tables part: D, H, I, R, F, N, T and A.
ghost use Rattle.std.specs.Prelude.{◌≡◌};
ghost use Rattle.terms.specs.Calls.{Follows};
ghost use Rattle.terms.specs.Entries.{entries};
ghost use Rattle.tables.specs.Tables.{drawing};
ghost use Rattle.scenario.specs.Lines.{table_line};

use crate::fault::{Cause, LineFault};
use crate::line::Line;
use tables::chart::RowNumbers;
use tables::tables::Tables;

pub(crate) fn table_line(tables: &mut Tables, line: &Line) -> Result<(), Cause>
    ensures { Follows (table_line (drawing tables.old) line.now.letter (entries line.now.numbers)) result (drawing tables.old) (drawing tables.new) }
{
    match (line.letter, line.numbers.as_slice()) {
        ('D', &[kind, object, signal, word]) => tables.add_send(kind, object, signal, word)?,
        ('H', &[parent, entry, exit]) => tables.add_state(parent, entry, exit)?,
        ('I', &[state, target]) => tables.set_initial(state, target)?,
        ('R', &[state, signal, guard, value, kind, target, send]) => tables.add_row(RowNumbers {
            state,
            signal,
            guard,
            value,
            kind,
            target,
            send,
        })?,
        ('F', &[state, signal, kind, next, send]) => tables.add_flat_row(
            state, signal, kind, next, send,
        )?,
        ('N', &[place, marks]) => tables.set_marks(place, marks)?,
        ('T', &[signal, send]) => tables.add_transition(signal, send)?,
        ('A', &[transition, place, take, give]) => tables.set_arc(transition, place, take, give)?,
        _ => return Err(LineFault::Form.into()),
    }
    Ok(())
}
