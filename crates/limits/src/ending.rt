// The three ways in which a session ends.
ghost use Rattle.std.specs.Prelude.{◌≡◌};
ghost use Rattle.limits.specs.Ending.{ending_number, EndingNumbered};

use crate::Refusal;

// How a session ended, by the number that records and cards give it.
#[derive(Clone, Copy, Debug, PartialEq, Eq)]
pub enum Ending {
    Reported = 0,
    Unfound = 1,
    CutShort = 2,
}

impl Ending {
    pub fn number(self) -> u8
        ensures { result ≡ ending_number self }
    {
        self as u8
    }
}

// The ending of a number. No card has a number above 2.
impl TryFrom<u8> for Ending {
    type Error = Refusal;

    ghost try_from_gives = { EndingNumbered };

    fn try_from(number: u8) -> Result<Self, Refusal> {
        match number {
            0 => Ok(Ending::Reported),
            1 => Ok(Ending::Unfound),
            2 => Ok(Ending::CutShort),
            _ => Err(Refusal::CardField),
        }
    }
}
