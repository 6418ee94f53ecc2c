// Why a set-up call refuses.
ghost use Rattle.std.specs.Prelude.{◌≡◌};
ghost use Rattle.kernel.specs.Faults.{refusal_of};

use terms::refusal::Refusal;

#[derive(Clone, Copy, Debug, PartialEq, Eq)]
pub enum SetupFault {
    Object,
    Signal,
    Pool,
    Length,
    Value,
}

impl From<SetupFault> for Refusal {
    ghost from_gives = { λ fault refusal. refusal ≡ refusal_of fault };

    fn from(fault: SetupFault) -> Refusal {
        match fault {
            SetupFault::Object => Refusal::Object,
            SetupFault::Signal => Refusal::Signal,
            SetupFault::Pool => Refusal::Pool,
            SetupFault::Length => Refusal::Length,
            SetupFault::Value => Refusal::Value,
        }
    }
}
