// Bytes as numbers and runs of bytes: what the other crates read, compare and write bytes with.
#![tactic(auto)]

mod numbers;
mod runs;

pub use numbers::{be16, be32, be32_bytes, be64, le32, le32_bytes, le64, le64_bytes, word_at};
pub use runs::{bytes_at, octet, part_end, put, same};
