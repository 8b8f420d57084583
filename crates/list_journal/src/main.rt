// Lists a journal: reads records of 32 bytes from standard input, and prints a line for each.
//
//     NUMBER KIND ANSWER OPEN AT0 AT1 AT2 AT3
//
// NUMBER is the record's, from 1, KIND its first byte, ANSWER 0 if the ledger accepts it and otherwise document 01's
// number of the refusal, 1 to 10. Of the ledger afterwards, OPEN is 1 if a rollover is open and else 0, and AT0 to
// AT3 are how many members are at each stage. Leftover bytes at the end give one line more, with how many they are.
//
//     short COUNT
//
// If standard input cannot be read to its end, the whole records that were read are listed, without such a line, and
// standard error says why. The exit status is then 1.
// list_tail is this program on a second journal: one call each, since a program has one stored run.
#![tactic(auto)]

use std::io;

fn main(rt: HostRuntime) -> io::Result<()> {
    list_input::run(&mut rt.stdin(), &mut rt.stdout())
}
