// Why a scenario file is refused: the first fault found, carried whole from the layer that found it, and its line.
ghost use Rattle.std.specs.Prelude.{◌≡◌, Some};
ghost use Rattle.scenario.specs.declared.fault.Cause.TheVariants as cause;
ghost use Rattle.scenario.specs.Faults.{layer_of, refusal_of, script_refusal_of, fault_text};

use kernel::fault::SetupFault;
use std::fmt;
use terms::refusal::Refusal;
use terms::table::TableFault;

// A fault of the file as a whole.
#[derive(Clone, Copy, Debug, PartialEq, Eq)]
pub enum FileFault {
    TooLong,
    Unterminated,
}

// A fault of a line's form.
#[derive(Clone, Copy, Debug, PartialEq, Eq)]
pub enum LineFault {
    Form,
}

// A fault in the values of a script line.
#[derive(Clone, Copy, Debug, PartialEq, Eq)]
pub enum ScriptFault {
    Signal,
    Words,
    Object,
}

// The fault of an inner layer.
#[derive(Clone, Copy, Debug, PartialEq, Eq)]
pub enum Cause {
    File(FileFault),
    Line(LineFault),
    Tables(TableFault),
    Setup(SetupFault),
    Script(ScriptFault),
}

// Line 0 stands for the file as a whole; lines count from 1.
#[derive(Clone, Copy, Debug, PartialEq, Eq)]
pub struct Fault {
    pub line: u16,
    pub cause: Cause,
}

impl From<LineFault> for Cause {
    ghost from_gives = { λ f r. r ≡ cause.Line f };

    fn from(fault: LineFault) -> Cause {
        Cause::Line(fault)
    }
}

impl From<TableFault> for Cause {
    ghost from_gives = { λ f r. r ≡ cause.Tables f };

    fn from(fault: TableFault) -> Cause {
        Cause::Tables(fault)
    }
}

impl From<SetupFault> for Cause {
    ghost from_gives = { λ f r. r ≡ cause.Setup f };

    fn from(fault: SetupFault) -> Cause {
        Cause::Setup(fault)
    }
}

impl From<ScriptFault> for Cause {
    ghost from_gives = { λ f r. r ≡ cause.Script f };

    fn from(fault: ScriptFault) -> Cause {
        Cause::Script(fault)
    }
}

impl Cause {
    // The layer that found the fault, as the rules number it: 1 file, 2 line form, 3 tables, 4 set-up, 5 script.
    pub fn layer(self) -> u8
        ensures { result ≡ layer_of self }
    {
        match self {
            Cause::File(_) => 1,
            Cause::Line(_) => 2,
            Cause::Tables(_) => 3,
            Cause::Setup(_) => 4,
            Cause::Script(_) => 5,
        }
    }
}

impl From<ScriptFault> for Refusal {
    ghost from_gives = { λ fault refusal. refusal ≡ script_refusal_of fault };

    fn from(fault: ScriptFault) -> Refusal {
        match fault {
            ScriptFault::Signal => Refusal::Signal,
            ScriptFault::Words => Refusal::Words,
            ScriptFault::Object => Refusal::Object,
        }
    }
}

impl From<Cause> for Refusal {
    ghost from_gives = { λ cause refusal. refusal ≡ refusal_of cause };

    fn from(cause: Cause) -> Refusal {
        match cause {
            Cause::File(_) => Refusal::File,
            Cause::Line(_) => Refusal::Form,
            Cause::Tables(fault) => fault.into(),
            Cause::Setup(fault) => fault.into(),
            Cause::Script(fault) => fault.into(),
        }
    }
}

// As a listing shows it: `! layer number line`.
impl fmt::Display for Fault {
    ghost output = { λ fault. Some (fault_text fault) };

    fn fmt<W: fmt::Write>(&self, f: &mut fmt::Formatter<W>) -> fmt::Result {
        let layer = self.cause.layer();
        let number = u8::from(Refusal::from(self.cause));
        write!(f, "! {layer} {number} {}", self.line)
    }
}
