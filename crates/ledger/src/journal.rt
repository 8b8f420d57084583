// A record of the journal: kind, member, six spare bytes, the time (8 bytes, big-endian), a secret (16).
ghost use Rattle.std.specs.Prelude.{◌≡◌};
ghost use Rattle.ledger.specs.Journal.{read_step};

use crate::Step;
use secret::Secret;

// What 32 bytes say. By its name and no `From`, since it reads a part and drops the spare bytes.
#[tactic(auto, using(octets::proofs::ReadLaws::be64_part), unfolding(crate::specs::Journal::read_step))]
pub fn read(bytes: &[u8; 32]) -> Step
    ensures { result ≡ read_step bytes.now }
{
    Step {
        kind: bytes[0],
        member: bytes[1],
        time: octets::be64(octets::bytes_at(bytes, 8)),
        secret: Secret::read(bytes.last_chunk().unwrap()),
    }
}
