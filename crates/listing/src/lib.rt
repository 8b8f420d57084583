// The listing of a journal: a line for each record, with the ledger's answer to it and the stages of the members afterwards. It is put
// into a lent buffer, block by block.
#![tactic(auto)]

ghost use Rattle.std.specs.Prelude.{◌≡◌, ◌*◌, ◌≤◌, length};
ghost use Rattle.ledger.specs.Ledger.{◌leaving◌};
ghost use Rattle.listing.specs.Answers.{block_of};
ghost use Rattle.listing.specs.Listing.{fresh_lister, row_after, listed};
ghost use Rattle.listing.specs.Steps.{PutOf};
ghost use Rattle.rows.specs.Rows.{row_line, longest};

use ledger::Ledger;
use rows::Row;

// The ledger after the records so far, and how many they were.
#[derive(Clone, Copy)]
pub struct Lister {
    pub ledger: Ledger,
    pub number: u64,
}

// What comes of a block: places in the buffer that the caller lends.
#[derive(Clone, Copy, Debug, PartialEq, Eq)]
pub struct Listed {
    // The records that were listed.
    pub records: usize,
    // Where their lines end.
    pub end: usize,
}

impl Lister {
    // Bytes of a record.
    pub const SIZE: usize = 32;

    // Before the first record.
    #[tactic(auto, unfolding(crate::specs::Listing::fresh_lister))]
    pub fn fresh() -> Lister
        ensures { result ≡ fresh_lister }
    {
        Lister {
            ledger: Ledger::fresh(),
            number: 0,
        }
    }

    // Lists the whole records of a block, as far as the output has room for the longest line of each. What stands behind the lines in
    // the output stays. That no line is longer than the longest is said too, so that a caller knows what room is left.
    pub fn list(&mut self, block: &[u8], output: &mut [u8]) -> Listed
        ensures { (block_of result self.new output.new ≡ listed self.old block.now output.old)
            × (result.end ≤ result.records * longest) }
    {
        let (whole, _) = block.as_chunks::<{ Lister::SIZE }>();
        let records = whole.len().min(output.len() / rows::LONGEST);
        let mut end = 0;
        for record in &whole[..records] {
            end = self.list_record(record, output, end);
        }
        Listed { records, end }
    }

    // Steps the ledger by a record, puts its line at a place of the output, and tells where the line ends.
    fn list_record(&mut self, bytes: &[u8; 32], output: &mut [u8], at: usize) -> usize
        ensures { PutOf self.old bytes.now output.old at self.new result output.new }
    {
        let answer = self.ledger.step(bytes);
        self.number = self.number.wrapping_add(1);
        let row = row_of(
            self.number,
            bytes[0],
            ledger::answer_number(answer),
            self.ledger,
        );
        rows::put_row(output, at, row)
    }
}

// What is said of a record, by what came of it. The kind and the answer are the numbers that are printed, and C hands them over so.
pub fn row_of(number: u64, kind: u8, answer: u8, ledger: Ledger) -> Row
    ensures { (result ≡ row_after number kind (answer leaving ledger)) × (length (row_line result) ≤ longest) }
{
    Row {
        number,
        kind,
        answer,
        rolling: ledger.rolling,
        at0: ledger.stages.count_at(0) as u8,
        at1: ledger.stages.count_at(1) as u8,
        at2: ledger.stages.count_at(2) as u8,
        at3: ledger.stages.count_at(3) as u8,
    }
}
