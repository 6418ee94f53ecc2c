// Which policy picks the next object: strict takes the highest number, rotating goes round.
ghost use Rattle.std.specs.Prelude.{◌≡◌};
ghost use Rattle.kernel.specs.Plan.{discipline_of};

use crate::fault::SetupFault;

#[derive(Clone, Copy, Debug, PartialEq, Eq)]
pub enum Discipline {
    Strict,
    Rotating,
}

// The policy that a scenario file names by a number.
impl TryFrom<u16> for Discipline {
    type Error = SetupFault;

    ghost try_from_gives = { λ number result. result ≡ discipline_of number };

    fn try_from(number: u16) -> Result<Discipline, SetupFault> {
        match number {
            0 => Ok(Discipline::Strict),
            1 => Ok(Discipline::Rotating),
            _ => Err(SetupFault::Value),
        }
    }
}
