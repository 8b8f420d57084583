// The text that the programs read and print: lines of standard input, their fields, bytes in hexadecimal, standard
// output.
// The promises here are bounds, which keep the programs safe, and that `output::say_words` writes just the words. What
// the programs print is compared with stored outputs.
#![tactic(auto)]

pub mod fields;
pub mod hex;
pub mod output;
pub mod reader;
pub mod text;
