// Runs of bytes: one byte of a run, two runs compared, a run written at a place of a lent buffer.
#![tactic(auto, using(crate::proofs::RunLaws::equal_is))]

ghost use Rattle.std.specs.Prelude.{◌≡◌, ◌+◌, get_or};
ghost use Rattle.octets.specs.Runs.{bytes_at, part_end, same_run, fits, written};

// The byte at a place, and 0 past the end.
pub fn octet(s: &[u8], at: usize) -> u8
    ensures { result ≡ get_or s.now at 0 }
{
    s.get(at).copied().unwrap_or(0)
}

// So many bytes from a place on, and 0 for each that is past the end. Where the caller's tests show that all are there, LLVM makes one
// load of it.
pub fn bytes_at<const N: usize>(s: &[u8], at: usize) -> [u8; N]
    ensures { result ≡ bytes_at N s.now at }
{
    let Some(rest) = s.get(at..) else {
        return [0; N];
    };
    if let Some(bytes) = rest.first_chunk() {
        return *bytes;
    }
    let mut bytes = [0; N];
    for (i, byte) in bytes.iter_mut().enumerate() {
        *byte = octet(rest, i);
    }
    bytes
}

// Where a part ends. Two bytes, `skip` bytes behind a place, are its length, and the part follows them. Nothing if the
// run does not have all of it. `skip` is a byte, so that `skip + 2` fits.
//
// A walk over records waits for this answer at each of them, so its form is chosen for speed:
// - The two bytes are added one by one. One load of both with a swap takes longer.
// - `skip` is an argument of its own. If a caller added it to the place, the sum would be tested, and so be worked out
//   before the two loads, which would wait for it. Here `start` is tested, which the answer needs anyway, and the
//   addition for `length` becomes a part of the loads' addresses.
#[tactic(auto, unfolding(crate::specs::Runs::part_end))]
pub fn part_end(s: &[u8], at: usize, skip: u8) -> Option<usize>
    ensures { result ≡ part_end s.now (at + skip) }
{
    let start = at.checked_add(skip as usize + 2)?;
    if s.len() < start {
        return None;
    }
    let length = at + skip as usize;
    let end = start + s[length] as usize * 256 + s[length + 1] as usize;
    if s.len() < end {
        return None;
    }
    Some(end)
}

// Whether two runs have the same bytes, and as many: `==` of the library, promised in this crate's words.
pub fn same(a: &[u8], b: &[u8]) -> bool
    ensures { result ≡ same_run a.now b.now }
{
    a == b
}

// Writes a run into a buffer from a place on, and tells whether it fits. If it does not, nothing is written. A bool and no Result, since
// the promise is one equation of it and of the buffer.
pub fn put(buffer: &mut [u8], at: usize, run: &[u8]) -> bool
    ensures { (result ≡ fits buffer.old at run.now) × (buffer.new ≡ written buffer.old at run.now) }
{
    if buffer.len() < at || buffer.len() - at < run.len() {
        return false;
    }
    buffer[at..at + run.len()].copy_from_slice(run);
    true
}
