// The lines of a journal's listing, put into a lent buffer. It is no `Display`: `put_row` promises each byte of the buffer and the place
// where the line ends, room or not, and that may not change.
#![tactic(auto, using(crate::proofs::RowLaws::no_room, crate::proofs::RowLaws::no_room_there))]

ghost use Rattle.std.specs.Prelude.{◌≡◌, cond, ◌++◌, ◌∷◌, [], ◌+◌, ◌≤◌, length};
ghost use Rattle.rows.specs.Rows.{decimal, line, row_line, short_line, ◌leaving◌, placed};
ghost use Rattle.rows.specs.Steps.{Put};

// What is said of a record.
#[derive(Clone, Copy, Debug, PartialEq, Eq)]
pub struct Row {
    // The record's number, from 1.
    pub number: u64,
    // The record's first byte, whatever it is, and 0 or the refusal's number: what is printed, so no enums.
    pub kind: u8,
    pub answer: u8,
    // Whether a rollover is open afterwards.
    pub rolling: bool,
    // The members at each stage afterwards: four fields and no array, as `row_line` (specs/Rows) names them.
    pub at0: u8,
    pub at1: u8,
    pub at2: u8,
    pub at3: u8,
}

// No line has more bytes.
pub const LONGEST: usize = 47;

// How many digits a number has. Four at a time, since a division costs more than the comparisons.
fn digits(x: u64) -> usize
    ensures { (result ≡ length (decimal x)) × (result ≤ 20) }
{
    let mut rest = x;
    let mut count = 0;
    while 10000 <= rest {
        rest /= 10000;
        count += 4;
    }
    if rest < 10 {
        return count + 1;
    }
    if rest < 100 {
        return count + 2;
    }
    if rest < 1000 {
        return count + 3;
    }
    count + 4
}

// The buffer and the place stay two parameters. Of a struct that holds the borrow each function would promise too that
// the borrow is the same and the buffer as long, which is known of a slice: three clauses where there is one (tried).

// Puts a number and the byte after it, the last digit first, so that each is stored where it stays: the place goes down with the
// quotient, and there is no list to walk.
fn put_number(buffer: &mut [u8], at: usize, x: u64, after: u8) -> usize
    requires { at + 21 ≤ length buffer.old }
    ensures { Put 21 buffer.old at (decimal x ++ (after ∷ [])) result buffer.new }
{
    let end = at + digits(x);
    let mut place = end;
    let mut rest = x;
    while 10 <= rest {
        place -= 1;
        buffer[place] = b'0' + (rest % 10) as u8;
        rest /= 10;
    }
    buffer[at] = b'0' + rest as u8;
    buffer[end] = after;
    end + 1
}

// Puts bytes: a small number and the byte after it.
fn put_bytes<const N: usize>(buffer: &mut [u8], at: usize, bytes: [u8; N]) -> usize
    requires { at + N ≤ length buffer.old }
    ensures { Put N buffer.old at bytes.entry result buffer.new }
{
    buffer[at..at + N].copy_from_slice(&bytes);
    at + N
}

// Puts a number of 8 bits and the byte after it, with no loop.
fn put_small(buffer: &mut [u8], at: usize, x: u8, after: u8) -> usize
    requires { at + 4 ≤ length buffer.old }
    ensures { Put 4 buffer.old at (decimal x ++ (after ∷ [])) result buffer.new }
{
    if x < 10 {
        return put_bytes(buffer, at, [b'0' + x, after]);
    }
    if x < 100 {
        return put_bytes(buffer, at, [b'0' + x / 10, b'0' + x % 10, after]);
    }
    put_bytes(
        buffer,
        at,
        [b'0' + x / 100, b'0' + x / 10 % 10, b'0' + x % 10, after],
    )
}

// Puts a bit and the byte after it.
fn put_bit(buffer: &mut [u8], at: usize, bit: bool, after: u8) -> usize
    requires { at + 2 ≤ length buffer.old }
    ensures { Put 2 buffer.old at (decimal (cond bit 1 0) ++ (after ∷ [])) result buffer.new }
{
    put_bytes(buffer, at, [b'0' + u8::from(bit), after])
}

// Puts the end of a row's line, the members at each stage.
fn put_counts(buffer: &mut [u8], at: usize, at0: u8, at1: u8, at2: u8, at3: u8) -> usize
    requires { at + 16 ≤ length buffer.old }
    ensures { Put 16 buffer.old at (line (at0 ∷ at1 ∷ at2 ∷ at3 ∷ [])) result buffer.new }
{
    let end = put_small(buffer, at, at0, b' ');
    let end = put_small(buffer, end, at1, b' ');
    let end = put_small(buffer, end, at2, b' ');
    put_small(buffer, end, at3, b'\n')
}

// Puts the line of a row into a buffer from a place on, and tells where it ends. Where there is no room for the longest line nothing
// is written, and the place is handed back.
pub fn put_row(buffer: &mut [u8], at: usize, row: Row) -> usize
    ensures { result leaving buffer.new ≡ placed buffer.old at (row_line row) }
{
    if buffer.len() < LONGEST || buffer.len() - LONGEST < at {
        return at;
    }
    let end = put_number(buffer, at, row.number, b' ');
    let end = put_small(buffer, end, row.kind, b' ');
    let end = put_small(buffer, end, row.answer, b' ');
    let end = put_bit(buffer, end, row.rolling, b' ');
    put_counts(buffer, end, row.at0, row.at1, row.at2, row.at3)
}

// Puts the line of leftover bytes likewise.
pub fn put_short(buffer: &mut [u8], at: usize, count: u64) -> usize
    ensures { result leaving buffer.new ≡ placed buffer.old at (short_line count) }
{
    if buffer.len() < LONGEST || buffer.len() - LONGEST < at {
        return at;
    }
    octets::put(buffer, at, b"short ");
    put_number(buffer, at + 6, count, b'\n')
}
