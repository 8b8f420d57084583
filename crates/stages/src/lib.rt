// Who the members of a fleet are, and how far each one is in the rollover that is open. The only crate that knows how stages are kept:
// sets of member numbers, each a word with a bit for each number.
#![tactic(auto, using(crate::proofs::Answers::cited))]

ghost use Rattle.std.specs.Prelude.{◌≡◌, ◌&&◌, eqb};
ghost use Rattle.stages.specs.Sets.{is_in, with_member, numbers_below, SetOf};
ghost use Rattle.stages.specs.Stages.{is_present, stage_of, any_at, all_dropped, count_at, no_stages, first_stages, reset_stages, learnt_by, switched_by, dropped_by};

#[derive(Clone, Copy, Debug, PartialEq, Eq)]
pub struct Stages {
    // The members of the fleet.
    pub members: u32,
    // Those that took the steps LEARN, SWITCH and DROP in the rollover that is open.
    pub learnt: u32,
    pub switched: u32,
    pub dropped: u32,
}

impl Stages {
    // Member numbers are below this one.
    pub const MEMBERS: u8 = 32;

    // No member.
    pub fn none() -> Stages
        ensures { result ≡ no_stages }
    {
        Stages {
            members: 0,
            learnt: 0,
            switched: 0,
            dropped: 0,
        }
    }

    // The members below a number, or all that can be, at stage 0.
    pub fn first(count: u8) -> Stages
        ensures { result ≡ first_stages count }
    {
        Stages {
            members: below(count),
            ..Stages::none()
        }
    }

    // The same members, all at stage 0.
    pub fn reset(self) -> Stages
        ensures { result ≡ reset_stages self }
    {
        Stages {
            members: self.members,
            ..Stages::none()
        }
    }

    // Whether a number is a member's.
    pub fn is_present(self, member: u8) -> bool
        ensures { result ≡ is_present self member }
    {
        is_in(self.members, member)
    }

    // The stage of a member, 0 to 3. Stages are numbers and no enum: the two questions below promise an answer for every u8, and the
    // ledger's table of secrets takes what this gives.
    pub fn stage(self, member: u8) -> u8
        ensures { result ≡ stage_of self member }
    {
        if is_in(self.dropped, member) {
            return 3;
        }
        if is_in(self.switched, member) {
            return 2;
        }
        if is_in(self.learnt, member) { 1 } else { 0 }
    }

    // Whether any member is at this stage.
    pub fn any_at(self, stage: u8) -> bool
        ensures { result ≡ any_at (is_present self) (stage_of self) stage }
    {
        self.at(stage) != 0
    }

    // How many members are at this stage.
    pub fn count_at(self, stage: u8) -> u32
        ensures { result ≡ count_at (is_present self) (stage_of self) stage }
    {
        u32::count_ones(self.at(stage))
    }

    // Whether every member is at stage 3.
    pub fn all_dropped(self) -> bool
        ensures { result ≡ all_dropped (is_present self) (stage_of self) }
    {
        self.members & !self.dropped == 0
    }

    // Three methods and not one: each sets another field, and says so in less than a choice of the field would take.
    pub fn learn(self, member: u8) -> Stages
        ensures { result ≡ learnt_by self member }
    {
        Stages {
            learnt: with(self.learnt, member),
            ..self
        }
    }

    pub fn switch(self, member: u8) -> Stages
        ensures { result ≡ switched_by self member }
    {
        Stages {
            switched: with(self.switched, member),
            ..self
        }
    }

    pub fn drop(self, member: u8) -> Stages
        ensures { result ≡ dropped_by self member }
    {
        Stages {
            dropped: with(self.dropped, member),
            ..self
        }
    }

    // The members at a stage.
    fn at(self, stage: u8) -> u32
        ensures { SetOf result (λ m. is_present self m && eqb (stage_of self m) stage) }
    {
        match stage {
            0 => self.members & !(self.learnt | self.switched | self.dropped),
            1 => self.members & self.learnt & !(self.switched | self.dropped),
            2 => self.members & self.switched & !self.dropped,
            3 => self.members & self.dropped,
            _ => 0,
        }
    }
}

fn is_in(set: u32, member: u8) -> bool
    ensures { result ≡ is_in set member }
{
    if member < Stages::MEMBERS {
        return (set >> member) & 1 == 1;
    }
    false
}

// The set with a number more; as it is if the number is no member's.
fn with(set: u32, member: u8) -> u32
    ensures { result ≡ with_member set member }
{
    if member < Stages::MEMBERS {
        return set | (1u32 << member);
    }
    set
}

// The numbers below this one.
fn below(count: u8) -> u32
    ensures { result ≡ numbers_below count }
{
    if count < Stages::MEMBERS {
        return (1u32 << count) - 1;
    }
    u32::MAX
}
