// crates/list_journal, run on a second stored journal, since a program has one stored run: every byte as a kind,
// every refusal, alone and with others, a rollover that is open where one block ends and the next begins, and
// leftover bytes at the end.
#![tactic(auto)]

use std::io;

fn main(rt: HostRuntime) -> io::Result<()> {
    list_input::run(&mut rt.stdin(), &mut rt.stdout())
}
