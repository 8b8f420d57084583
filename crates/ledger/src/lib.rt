// The rollover ledger of one anycast fleet: not a secret that is saved, but a journal of steps, each of which the ledger accepts or
// refuses. Members learn a new secret, then make cookies with it, then drop the old one, and no step is accepted that would let one
// member make what another rejects.
#![tactic(auto)]

ghost use Rattle.std.specs.Prelude.{◌≡◌};
ghost use Rattle.ledger.specs.Answers.{answer_number, held_of};
ghost use Rattle.ledger.specs.Journal.{read_step};
ghost use Rattle.ledger.specs.Ledger.{view_of, fresh_ledger, ◌leaving◌, stepped};
ghost use Rattle.ledger.specs.Rules.{wait, secrets_of};

use secret::{Secret, Secrets};
use stages::Stages;

mod journal;
mod kinds;
mod moves;
mod rules;
mod table;

pub use kinds::Kind;
pub use table::answer_number;

// Why a step is refused, by document 01's numbers.
#[derive(Clone, Copy, Debug, PartialEq, Eq)]
pub enum Refusal {
    // No kind of step.
    Kind = 1,
    // A time that is too great.
    Time = 2,
    // A time before the last accepted step's.
    Earlier = 3,
    // START when started, OPEN when open.
    Again = 4,
    // Before START, or with no rollover open.
    NotOpen = 5,
    // OPEN with the current secret, or another secret than the open rollover's.
    OtherSecret = 6,
    // START of 0 members or too many, or no member's number.
    NoMember = 7,
    // A member that is not at the stage from which its step starts.
    OtherStage = 8,
    // Others that are not far enough, or too far to cancel.
    OthersApart = 9,
    // DROP too soon after the last SWITCH.
    Wait = 10,
}

// What a record of the journal says.
#[derive(Clone, Copy)]
pub struct Step {
    // The number of its kind, or any other byte: no `Kind`, since `read_step` and row 1 speak of every record.
    pub kind: u8,
    // The count in START; not looked at in OPEN and CANCEL.
    pub member: u8,
    pub time: u64,
    pub secret: Secret,
}

// Where a secret is not held it is zero, and no Option: the definitions (`view_of`, and a snapshot's) speak of every value of these
// fields, whether steps can give it or not.
#[derive(Clone, Copy)]
pub struct Ledger {
    pub started: bool,
    // Whether a rollover is open, from the current secret to the new one.
    pub rolling: bool,
    pub current: Secret,
    pub new: Secret,
    pub stages: Stages,
    // The time of the last accepted step, and of the last accepted SWITCH.
    pub last: u64,
    pub last_switch: u64,
}

impl Ledger {
    // The most members that a fleet can have.
    pub const MEMBERS: u8 = Stages::MEMBERS;
    // A DROP is refused before the last SWITCH plus this: a second more than a cookie is good, since one may be made in the second
    // of that SWITCH.
    pub const WAIT: u64 = 3601;
    // The greatest time of a step.
    pub const LATEST: u64 = 281474976710655;

    // Not started.
    #[tactic(auto, unfolding(crate::specs::Ledger::fresh_ledger))]
    pub fn fresh() -> Ledger
        ensures { result ≡ fresh_ledger }
    {
        Ledger {
            started: false,
            rolling: false,
            current: moves::no_secret(),
            new: moves::no_secret(),
            stages: Stages::none(),
            last: 0,
            last_switch: 0,
        }
    }

    // A record of the journal on a ledger. A refusal leaves the ledger as it was. In clauses `entry` and `exit` stand for `old` and `new`,
    // since a ledger has a field `new`.
    #[tactic(auto, unfolding(crate::specs::Ledger::stepped, crate::specs::Ledger::outcome))]
    pub fn step(&mut self, bytes: &[u8; 32]) -> Result<(), Refusal>
        ensures { answer_number result leaving self.exit.now ≡ stepped wait self.entry.now (read_step bytes.now) }
    {
        let step = journal::read(bytes);
        let kind = Kind::try_from(step.kind)?;
        self.check(kind, step)?;
        self.accept(kind, step);
        Ok(())
    }

    // A member's secrets: nothing before START, nor for a number that is no member's.
    #[tactic(auto, unfolding(crate::specs::Rules::secrets_of))]
    pub fn secrets(&self, member: u8) -> Option<Secrets>
        ensures { held_of result ≡ secrets_of (view_of self.now) member }
    {
        if self.started && self.stages.is_present(member) {
            let stage = self.stages.stage(member);
            return Some(table::secrets_at(stage, self.current, self.new));
        }
        None
    }
}
