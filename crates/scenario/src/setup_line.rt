// The set-up part: P, Q, S and W.
ghost use Rattle.std.specs.Prelude.{◌≡◌};
ghost use Rattle.terms.specs.Calls.{Follows};
ghost use Rattle.terms.specs.Entries.{entries};
ghost use Rattle.scenario.specs.Cell.{setting_of};
ghost use Rattle.scenario.specs.Lines.{setup_line};

use crate::fault::{Cause, LineFault};
use crate::line::Line;
use crate::setting::Setting;
use kernel::discipline::Discipline;

pub(crate) fn setup_line(setting: &mut Setting, line: &Line) -> Result<(), Cause>
    ensures { Follows (setup_line (setting_of setting.old) line.now.letter (entries line.now.numbers)) result (setting_of setting.old) (setting_of setting.new) }
{
    match (line.letter, line.numbers.as_slice()) {
        ('P', &[size, count]) => setting.layout.add_pool(size, count)?,
        ('Q', &[object, queue, deferral]) => setting.layout.set_lengths(object, queue, deferral)?,
        ('S', &[object, signal]) => setting.layout.subscribe(object, signal)?,
        ('W', &[choice]) => setting.discipline = choice.try_into()?,
        _ => return Err(LineFault::Form.into()),
    }
    Ok(())
}
