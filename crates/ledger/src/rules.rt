// The refusals, in their order. The rows that a kind of step cannot meet are not asked of it.
ghost use Rattle.std.specs.Prelude.{◌≡◌, not, ◌&&◌, ◌||◌, [], ◌∷◌, ◌+◌, eqb, ltb};
ghost use Rattle.octets.specs.Refusals.{◌when◌, first};
ghost use Rattle.secret.specs.Secret.{same_secret};
ghost use Rattle.stages.specs.Sets.{member_limit};
ghost use Rattle.stages.specs.Stages.{is_present, stage_of};
ghost use Rattle.ledger.specs.Answers.{answer_number, of_kind};
ghost use Rattle.ledger.specs.Ledger.{view_of};
ghost use Rattle.ledger.specs.Rules.{latest, wait, refusal};

use crate::{Kind, Ledger, Refusal, Step};
use secret::Secret;
use stages::Stages;

// Whether a DROP is before the last SWITCH plus the wait. The sum need not be a u64, in a ledger that no steps give.
fn is_too_soon(time: u64, switch: u64) -> bool
    ensures { result ≡ ltb time (switch + wait) }
{
    if time < Ledger::WAIT {
        return true;
    }
    time - Ledger::WAIT < switch
}

// Rows 7 and 8, of LEARN, SWITCH and DROP: a member, at the stage from which the step starts, a number as crate stages has it.
fn check_member(stages: Stages, member: u8, from: u8) -> Result<(), Refusal>
    ensures { answer_number result
        ≡ first (7 when not (is_present stages member)
        ∷ 8 when not (eqb (stage_of stages member) from)
        ∷ []) }
{
    if !stages.is_present(member) {
        return Err(Refusal::NoMember);
    }
    if stages.stage(member) != from {
        return Err(Refusal::OtherStage);
    }
    Ok(())
}

// Row 9, of SWITCH, DROP and CANCEL: others that are not far enough, or too far.
fn check_apart(apart: bool) -> Result<(), Refusal>
    ensures { answer_number result ≡ first (9 when apart ∷ []) }
{
    if apart {
        return Err(Refusal::OthersApart);
    }
    Ok(())
}

// Row 10, of DROP.
fn check_waited(time: u64, switch: u64) -> Result<(), Refusal>
    ensures { answer_number result ≡ first (10 when ltb time (switch + wait) ∷ []) }
{
    if is_too_soon(time, switch) {
        return Err(Refusal::Wait);
    }
    Ok(())
}

impl Ledger {
    // Rows 2 and 3, of every kind.
    fn check_time(&self, time: u64) -> Result<(), Refusal>
        ensures { answer_number result ≡ first (2 when ltb latest time ∷ 3 when ltb time self.now.last ∷ []) }
    {
        if Ledger::LATEST < time {
            return Err(Refusal::Time);
        }
        if time < self.last {
            return Err(Refusal::Earlier);
        }
        Ok(())
    }

    // Rows 4 and 7, of START.
    fn check_start(&self, count: u8) -> Result<(), Refusal>
        ensures { answer_number result
            ≡ first (4 when self.now.started
            ∷ 7 when (eqb count 0 || ltb member_limit count)
            ∷ []) }
    {
        if self.started {
            return Err(Refusal::Again);
        }
        if count == 0 || Ledger::MEMBERS < count {
            return Err(Refusal::NoMember);
        }
        Ok(())
    }

    // Rows 4, 5 and 6, of OPEN.
    fn check_open(&self, secret: Secret) -> Result<(), Refusal>
        ensures { answer_number result
            ≡ first (4 when self.now.rolling
            ∷ 5 when not self.now.started
            ∷ 6 when same_secret secret self.now.current
            ∷ []) }
    {
        if self.rolling {
            return Err(Refusal::Again);
        }
        if !self.started {
            return Err(Refusal::NotOpen);
        }
        if secret.same(self.current) {
            return Err(Refusal::OtherSecret);
        }
        Ok(())
    }

    // Rows 5 and 6, of the kinds that name the new secret.
    fn check_named(&self, secret: Secret) -> Result<(), Refusal>
        ensures { answer_number result
            ≡ first (5 when (not self.now.started || not self.now.rolling)
            ∷ 6 when not (same_secret secret self.now.new)
            ∷ []) }
    {
        if !self.started || !self.rolling {
            return Err(Refusal::NotOpen);
        }
        if !secret.same(self.new) {
            return Err(Refusal::OtherSecret);
        }
        Ok(())
    }

    // The first row that applies, from row 2 on: row 1 is that the step has a kind. Each row is asked once, and a kind is left behind its
    // last one: with an arm for each kind, LLVM jumps by a table, which is slower.
    #[tactic(auto, unfolding(crate::specs::Rules::refusal))]
    pub(crate) fn check(&self, kind: Kind, step: Step) -> Result<(), Refusal>
        ensures { answer_number result ≡ refusal wait (view_of self.now) (of_kind kind step) }
    {
        self.check_time(step.time)?;
        match kind {
            Kind::Start => return self.check_start(step.member),
            Kind::Open => return self.check_open(step.secret),
            Kind::Learn | Kind::Switch | Kind::Drop | Kind::Cancel => {}
        }
        self.check_named(step.secret)?;
        if kind == Kind::Cancel {
            return check_apart(self.stages.any_at(2) || self.stages.any_at(3));
        }
        check_member(self.stages, step.member, kind.stage_before())?;
        if kind == Kind::Learn {
            return Ok(());
        }
        check_apart(self.stages.any_at(0))?;
        if kind == Kind::Switch {
            return Ok(());
        }
        check_apart(self.stages.any_at(1))?;
        check_waited(step.time, self.last_switch)
    }
}
