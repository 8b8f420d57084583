// The age of a cookie in serial arithmetic, and the verdict by it.
ghost use Rattle.std.specs.Prelude.{◌≡◌};
ghost use Rattle.verdict.specs.Findings.{finding, by_time};
ghost use Rattle.verdict.specs.Serial.{age};

use crate::{Reason, Verdict, Which};

// The age of a timestamp, in seconds.
#[tactic(auto, unfolding(crate::specs::Serial::age))]
pub fn serial_age(clock: u32, timestamp: u32) -> i32
    ensures { result ≡ age clock timestamp }
{
    clock.wrapping_sub(timestamp).cast_signed()
}

// The verdict on a cookie whose hash is right under a secret: its age decides.
#[tactic(auto, unfolding(crate::specs::Findings::is_timely, crate::specs::Findings::by_time))]
pub fn by_time(age: i32, secret: Which) -> Verdict
    ensures { finding result ≡ by_time age secret }
{
    if (-300..=3600).contains(&age) {
        Verdict::Good { age, secret }
    } else {
        Verdict::Bad(Reason::Time)
    }
}
