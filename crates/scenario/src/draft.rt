// A scenario as far as its lines were read: the part that they have reached, the set-up and the tables.
ghost use Rattle.std.specs.Prelude.{◌≡◌, List, []};
ghost use Rattle.terms.specs.Entries.{entries};
ghost use Rattle.scenario.specs.Cell.{Order};
ghost use Rattle.scenario.specs.Reading.{drafted, outcome, means, LineIs, blank_page};

use crate::fault::{Cause, LineFault};
use crate::line::Line;
use crate::part::Part;
use crate::script::Command;
use crate::script_line::script_line;
use crate::setting::Setting;
use crate::setup_line::setup_line;
use crate::table_line::table_line;
use tables::tables::Tables;

#[derive(Clone, Copy)]
pub struct Draft {
    part: Part,
    pub setting: Setting,
    pub tables: Tables,
}

impl Draft {
    pub(crate) fn new() -> Draft
        ensures { drafted result [] ≡ blank_page }
    {
        Draft {
            part: Part::Setup,
            setting: Setting::new(),
            tables: Tables::new(),
        }
    }

    // Takes the next line, and answers the command of a line of the script.
    pub(crate) fn line(&mut self, bytes: &[u8]) -> Result<Option<Command>, Cause>
        ensures { (script : List Order) → LineIs (drafted self.old script) bytes.now (outcome self.new script result) }
    {
        let mut line = Line::new();
        line.parse(bytes).ok_or(LineFault::Form)?;
        self.act(&line)
    }

    // What a line says, once it is spelt.
    fn act(&mut self, line: &Line) -> Result<Option<Command>, Cause>
        ensures { (script : List Order) → outcome self.new script result ≡ means (drafted self.old script) line.now.letter (entries line.now.numbers) }
    {
        let part = Part::of_letter(line.letter).ok_or(LineFault::Form)?;
        if part < self.part {
            return Err(LineFault::Form.into());
        }
        self.part = part;
        match part {
            Part::Setup => {
                setup_line(&mut self.setting, line)?;
                Ok(None)
            }
            Part::Tables => {
                table_line(&mut self.tables, line)?;
                Ok(None)
            }
            Part::Script => Ok(Some(script_line(&self.setting.layout, line)?)),
        }
    }
}
