// The fields of a line.
ghost use Rattle.std.specs.Prelude.{◌≤◌, length};

// How many fields a line has: one more than its spaces.
pub fn fields(line: &[u8]) -> usize {
    line.split(|b| *b == b' ').count()
}

// Where the field of a number starts, the first being 0, and the length past the last. A place, which `split` does not tell.
pub fn field_start(line: &[u8], number: usize) -> usize
    ensures { result ≤ length line.now }
{
    let mut at = 0;
    for _ in 0..number {
        match line[at..].iter().position(|b| *b == b' ') {
            Some(n) => at += n + 1,
            None => return line.len(),
        }
    }
    at
}

// The field of a number, and nothing past the last.
pub fn field(line: &[u8], number: usize) -> &[u8] {
    line.split(|b| *b == b' ').nth(number).unwrap_or(b"")
}
