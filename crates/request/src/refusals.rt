// A refusal's number, and what the crates below call one.
ghost use Rattle.std.specs.Prelude.{◌≡◌};
ghost use Rattle.request.specs.Answers.{refusal_number, of_fault};
ghost use Rattle.request.specs.declared.Refusal.TheVariants.{OptionPast};

use crate::Refusal;
use edns::Past;
use message::Fault;

// Document 01's number of a refusal, 3 to 10. Each crate that refuses has its own impl of the library's trait.
impl From<Refusal> for u8 {
    ghost from_gives = { λ refusal n. n ≡ refusal_number refusal };

    fn from(refusal: Refusal) -> u8 {
        refusal as u8
    }
}

impl From<Fault> for Refusal {
    ghost from_gives = { λ fault refusal. refusal ≡ of_fault fault };

    fn from(fault: Fault) -> Refusal {
        match fault {
            Fault::Malformed => Refusal::Malformed,
            Fault::WrongOpt => Refusal::WrongOpt,
        }
    }
}

impl From<Past> for Refusal {
    ghost from_gives = { λ _ refusal. refusal ≡ OptionPast };

    fn from(_past: Past) -> Refusal {
        Refusal::OptionPast
    }
}
