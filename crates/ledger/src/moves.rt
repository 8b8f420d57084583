// What an accepted step makes of a ledger, by its kind.
ghost use Rattle.std.specs.Prelude.{◌≡◌};
ghost use Rattle.ledger.specs.Answers.{of_kind};
ghost use Rattle.ledger.specs.Rules.{no_secret};
ghost use Rattle.ledger.specs.Ledger.{after_start, after_open, after_move, after_close, after_drop, accept};

use crate::{Kind, Ledger, Step};
use secret::Secret;
use stages::Stages;

pub fn no_secret() -> Secret
    ensures { result ≡ no_secret }
{
    Secret { k0: 0, k1: 0 }
}

impl Ledger {
    #[tactic(auto, unfolding(crate::specs::Ledger::accept))]
    pub(crate) fn accept(&mut self, kind: Kind, step: Step)
        ensures { self.exit.now ≡ accept self.entry.now (of_kind kind step) }
    {
        match kind {
            Kind::Start => self.start(step),
            Kind::Open => self.open(step),
            Kind::Learn => self.move_to(step, self.stages.learn(step.member)),
            Kind::Switch => {
                self.move_to(step, self.stages.switch(step.member));
                self.last_switch = step.time;
            }
            Kind::Drop => self.drop(step),
            Kind::Cancel => self.close(step),
        }
    }

    fn start(&mut self, step: Step)
        ensures { self.exit.now ≡ after_start self.entry.now step }
    {
        self.started = true;
        self.rolling = false;
        self.current = step.secret;
        self.new = no_secret();
        self.stages = Stages::first(step.member);
        self.last = step.time;
    }

    fn open(&mut self, step: Step)
        ensures { self.exit.now ≡ after_open self.entry.now step }
    {
        self.rolling = true;
        self.new = step.secret;
        self.stages = self.stages.reset();
        self.last = step.time;
    }

    // A member step: the stages afterwards.
    fn move_to(&mut self, step: Step, stages: Stages)
        ensures { self.exit.now ≡ after_move self.entry.now step stages self.entry.now.last_switch }
    {
        self.stages = stages;
        self.last = step.time;
    }

    // Nothing is open any more, all are at stage 0, and the new secret is forgotten.
    fn close(&mut self, step: Step)
        ensures { self.exit.now ≡ after_close self.entry.now step self.entry.now.current }
    {
        self.rolling = false;
        self.new = no_secret();
        self.stages = self.stages.reset();
        self.last = step.time;
    }

    // When the last member drops, the new secret becomes current.
    fn drop(&mut self, step: Step)
        ensures { self.exit.now ≡ after_drop self.entry.now step }
    {
        let after = self.stages.drop(step.member);
        if after.all_dropped() {
            self.current = self.new;
            self.close(step);
        } else {
            self.move_to(step, after);
        }
    }
}
