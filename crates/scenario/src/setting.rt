// What the set-up lines of a scenario say.
ghost use Rattle.std.specs.Prelude.{◌≡◌};
ghost use Rattle.scenario.specs.Cell.{setting_of, unset};

use kernel::discipline::Discipline;
use kernel::layout::Layout;

#[derive(Clone, Copy)]
pub struct Setting {
    pub layout: Layout,
    pub discipline: Discipline,
}

impl Setting {
    // A cell of three objects before its set-up lines: strict, unless a line says otherwise.
    pub fn new() -> Setting
        ensures { setting_of result ≡ unset }
    {
        Setting {
            layout: Layout::new(3),
            discipline: Discipline::Strict,
        }
    }
}
