// Document 01's tables: the number of an answer, and the stage table.
ghost use Rattle.std.specs.Prelude.{◌≡◌};
ghost use Rattle.ledger.specs.Answers.{refusal_number, answer_number};
ghost use Rattle.ledger.specs.Rules.{stage_table};

use crate::Refusal;
use secret::{Secret, Secrets};

// Each crate that refuses has its own impl: the trait is the library's, and the numbers stand at the names.
impl From<Refusal> for u8 {
    ghost from_gives = { λ reason number. number ≡ refusal_number reason };

    fn from(reason: Refusal) -> u8 {
        reason as u8
    }
}

// 0 for a step that is accepted, and otherwise the refusal's number.
pub fn answer_number(answer: Result<(), Refusal>) -> u8
    ensures { result ≡ answer_number answer }
{
    match answer {
        Ok(()) => 0,
        Err(reason) => u8::from(reason),
    }
}

// What a member at a stage makes cookies with, and what else it accepts. The stage is a number and no enum, as crate stages gives it:
// `stage_table` speaks of every one.
pub fn secrets_at(stage: u8, current: Secret, new: Secret) -> Secrets
    ensures { result ≡ stage_table stage current new }
{
    match stage {
        0 => Secrets::One(current),
        1 => Secrets::Two {
            generating: current,
            other: new,
        },
        2 => Secrets::Two {
            generating: new,
            other: current,
        },
        _ => Secrets::One(new),
    }
}
