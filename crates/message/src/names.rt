// Where a name ends.
ghost use Rattle.std.specs.Prelude.{◌≡◌};
ghost use Rattle.message.specs.Name.{terminator, name_end};
ghost use Rattle.message.specs.Answers.{end_of};

// Where a name ends that has no label here: behind a zero byte, or behind a pointer's two bytes.
#[tactic(auto, unfolding(crate::specs::Name::terminator))]
fn terminator_end(message: &[u8], at: usize) -> Option<usize>
    ensures { end_of result ≡ terminator message.now at }
{
    let b = *message.get(at)?;
    if b == 0 {
        return Some(at + 1);
    }
    if b < 192 {
        return None;
    }
    let end = at + 2;
    if message.len() < end {
        return None;
    }
    Some(end)
}

// Where the name that starts at a place ends. The root, which most records of a request have for their owner, is seen
// before the loop. A label says where the next one is, so that no `for` fits.
pub fn name_end(message: &[u8], at: usize) -> Option<usize>
    ensures { end_of result ≡ name_end message.now at }
{
    if *message.get(at)? == 0 {
        return Some(at + 1);
    }
    let mut i = at;
    while let Some(&n) = message.get(i) {
        let next = i + 1;
        if n == 0 {
            return Some(next);
        }
        if 63 < n {
            return terminator_end(message, i);
        }
        i = next + n as usize;
    }
    None
}
