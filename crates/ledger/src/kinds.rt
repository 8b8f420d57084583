// The kinds of step, by the number that a record has for each.
ghost use Rattle.std.specs.Prelude.{◌≡◌, ◌-◌};
ghost use Rattle.ledger.specs.Answers.{kind_number, Decodes};

use crate::Refusal;

#[derive(Clone, Copy, Debug, PartialEq, Eq)]
pub enum Kind {
    Start = 0,
    Open = 1,
    Learn = 2,
    Switch = 3,
    Drop = 4,
    Cancel = 5,
}

impl Kind {
    // The stage from which LEARN, SWITCH or DROP takes its member; of the others nobody asks.
    pub(crate) fn stage_before(self) -> u8
        ensures { result ≡ kind_number self - 2 }
    {
        (self as u8).saturating_sub(Kind::Learn as u8)
    }
}

impl TryFrom<u8> for Kind {
    type Error = Refusal;

    ghost try_from_gives = { Decodes };

    fn try_from(number: u8) -> Result<Kind, Refusal> {
        match number {
            0 => Ok(Kind::Start),
            1 => Ok(Kind::Open),
            2 => Ok(Kind::Learn),
            3 => Ok(Kind::Switch),
            4 => Ok(Kind::Drop),
            5 => Ok(Kind::Cancel),
            _ => Err(Refusal::Kind),
        }
    }
}
