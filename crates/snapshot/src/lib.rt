// A ledger as bytes: what a controller keeps between steps, in memory that it lends or in a file. Whatever bytes are lent, they are a
// snapshot of one ledger, or are refused.
#![tactic(auto)]

ghost use Rattle.std.specs.Prelude.{◌≡◌, true, ◌+◌, ◌≤◌, eqb, length, drop};
ghost use Rattle.octets.specs.Runs.{written};
ghost use Rattle.secret.specs.Secret.{secret_of};
ghost use Rattle.snapshot.specs.Answers.{found_of};
ghost use Rattle.snapshot.specs.Snapshot.{size, front_of, stages_bytes, stages_of, number_at, is_snapshot, ledger_of, ledger_in, snapshot_of, kept_in};

use ledger::Ledger;
use secret::Secret;
use stages::Stages;

// Bytes of a snapshot.
pub const SIZE: usize = 68;

// The number of the form that they have.
pub const VERSION: u8 = 1;

// Whether some bytes are a snapshot.
#[tactic(auto, unfolding(crate::specs::Snapshot::is_snapshot))]
fn is_snapshot(s: &[u8; SIZE]) -> bool
    ensures { result ≡ is_snapshot s.now }
{
    matches!(s, [VERSION, 0 | 1, 0 | 1, 0, ..])
}

#[tactic(auto, unfolding(crate::specs::Snapshot::stages_of))]
fn stages_of(s: &[u8; SIZE]) -> Stages
    ensures { result ≡ stages_of s.now }
{
    Stages {
        members: octets::le32(octets::bytes_at(s, 4)),
        learnt: octets::le32(octets::bytes_at(s, 8)),
        switched: octets::le32(octets::bytes_at(s, 12)),
        dropped: octets::le32(octets::bytes_at(s, 16)),
    }
}

#[tactic(auto, unfolding(crate::specs::Snapshot::ledger_of))]
fn ledger_of(s: &[u8; SIZE]) -> Ledger
    ensures { result ≡ ledger_of s.now }
{
    Ledger {
        started: s[1] == 1,
        rolling: s[2] == 1,
        current: Secret::read(&octets::bytes_at(s, 36)),
        new: Secret::read(&octets::bytes_at(s, 52)),
        stages: stages_of(s),
        last: octets::word_at(s, 20),
        last_switch: octets::word_at(s, 28),
    }
}

// The ledger that some bytes are; nothing if they are no snapshot: not SIZE bytes, of another form, or not as `write` has them.
#[tactic(auto, unfolding(crate::specs::Snapshot::ledger_in, crate::specs::Snapshot::is_snapshot))]
pub fn read(s: &[u8]) -> Option<Ledger>
    ensures { found_of result ≡ ledger_in s.now }
{
    let s = <&[u8; SIZE]>::try_from(s).ok()?;
    is_snapshot(s).then(|| ledger_of(s))
}

fn put_stages(lent: &mut [u8; SIZE], stages: Stages)
    ensures { lent.new ≡ written lent.old 4 (stages_bytes stages) }
{
    octets::put(lent, 4, &octets::le32_bytes(stages.members));
    octets::put(lent, 8, &octets::le32_bytes(stages.learnt));
    octets::put(lent, 12, &octets::le32_bytes(stages.switched));
    octets::put(lent, 16, &octets::le32_bytes(stages.dropped));
}

// All but the secrets.
fn put_front(lent: &mut [u8; SIZE], ledger: Ledger)
    ensures { lent.new ≡ written lent.old 0 (front_of ledger) }
{
    octets::put(
        lent,
        0,
        &[VERSION, ledger.started as u8, ledger.rolling as u8, 0],
    );
    put_stages(lent, ledger.stages);
    octets::put(lent, 20, &octets::le64_bytes(ledger.last));
    octets::put(lent, 28, &octets::le64_bytes(ledger.last_switch));
}

fn put_all(lent: &mut [u8; SIZE], ledger: Ledger)
    ensures { lent.new ≡ snapshot_of ledger }
{
    put_front(lent, ledger);
    octets::put(lent, 36, &ledger.current.bytes());
    octets::put(lent, 52, &ledger.new.bytes());
}

// Writes the snapshot of a ledger into bytes that are lent, and tells whether they are as many as it has. If they are not, nothing is
// written. A bool and no Result, since the promise is one equation of it and of the bytes.
#[tactic(auto, unfolding(crate::specs::Snapshot::kept_in))]
pub fn write(lent: &mut [u8], ledger: Ledger) -> bool
    ensures { (result ≡ eqb (length lent.old) size) × (lent.new ≡ kept_in lent.old ledger) }
{
    if lent.len() != SIZE {
        return false;
    }
    put_all(lent.first_chunk_mut().unwrap(), ledger);
    true
}
