// The journal lister: lists an input to an output, block by block.
#![tactic(auto)]

ghost use Rattle.std.specs.Prelude.{◌≡◌, cond, ◌≤◌, ◌<◌, ◌/◌, ◌%◌, length};
ghost use Rattle.listing.specs.Listing.{size, lister_past};
ghost use Rattle.list_input.specs.Text.{Whole, Roomy, is_end, goes_on, FilledTo, PutOf};

use lines::reader;
use listing::Lister;
use std::io;
use std::io::{Read, Write};

// Bytes of a block: whole records, so that leftover bytes exist only at the end of the input.
const BLOCK: usize = 65536;

// Room for the longest line of each record of a block, and one line more.
const OUTPUT: usize = 98304;

// How far a block was filled, and whether the input ended there; an error if a read failed. A count and no part of the block, which is
// lent for the next filling while the error waits.
#[derive(Clone, Copy)]
struct Filled {
    count: usize,
    end: io::Result<bool>,
}

impl Filled {
    // Whether the input has ended. That a read failed is no end.
    fn is_end(self) -> bool
        ensures { result ≡ is_end self.end }
    {
        self.end.unwrap_or(false)
    }

    // Whether there is more to read. A read that failed is told.
    fn goes_on(self) -> io::Result<bool>
        ensures { result ≡ goes_on self.end }
    {
        self.end.map(|end| !end)
    }
}

// Reads until the block is full or there is no more, since a pipe hands over what it has. The count is what is told, so that a slice of
// what is left to fill would be one thing more.
fn fill(input: &mut impl Read, block: &mut [u8]) -> Filled
    ensures { (result.count ≤ length block.new) × FilledTo result.end result.count block.new }
{
    let mut count = 0;
    while count < block.len() {
        match reader::read_some(input, &mut block[count..]) {
            Ok(0) => {
                return Filled {
                    count,
                    end: Ok(true),
                };
            }
            Ok(more) => count += more,
            Err(error) => {
                return Filled {
                    count,
                    end: Err(error),
                };
            }
        }
    }
    Filled {
        count,
        end: Ok(false),
    }
}

// The bytes behind the whole records, which the last block alone can have.
fn leftover(count: usize, last: bool) -> usize
    ensures { (result ≡ cond last (count % size) 0) × (result < size) }
{
    if last { count % Lister::SIZE } else { 0 }
}

// Puts the text of a block, and tells where it ends. That the output has room for it (`Roomy`) stands here and in the two functions
// below, since the part that was filled has another length each time.
fn put_block(lister: &mut Lister, block: &[u8], output: &mut [u8], last: bool) -> usize
    requires { Roomy block.now output.old }
    ensures { PutOf lister.old block.now last output.old lister.new result output.new }
{
    let end = lister.list(block, output).end;
    match leftover(block.len(), last) {
        0 => end,
        left => rows::put_short(output, end, left as u64),
    }
}

// Lists a block to the output.
fn say_block(
    out: &mut impl Write,
    lister: &mut Lister,
    block: &[u8],
    output: &mut [u8],
    last: bool,
) -> io::Result<()>
    requires { Roomy block.now output.old }
    ensures { lister.new ≡ lister_past (length block.now / size) lister.old block.now }
{
    let end = put_block(lister, block, output, last);
    out.write_all(&output[..end])
}

// A proved loop has to end, and nothing says that the input does: it takes a number of turns that no run uses up.
fn list_blocks(
    input: &mut impl Read,
    out: &mut impl Write,
    block: &mut [u8],
    output: &mut [u8],
) -> io::Result<()>
    requires whole { Whole block.old }
    requires roomy { Roomy block.old output.old }
{
    let mut lister = Lister::fresh();
    for _ in 0..u64::MAX {
        let filled = fill(input, block);
        let last = filled.is_end();
        say_block(out, &mut lister, &block[..filled.count], output, last)?;
        if !filled.goes_on()? {
            return Ok(());
        }
    }
    Ok(())
}

// Lists the journal that the input is. If a read fails, the whole records that were read are listed before the error;
// if a write fails, a part of the listing is written.
pub fn run(input: &mut impl Read, out: &mut impl Write) -> io::Result<()> {
    let mut block = [0u8; BLOCK];
    let mut output = [0u8; OUTPUT];
    list_blocks(input, out, &mut block, &mut output)
}
