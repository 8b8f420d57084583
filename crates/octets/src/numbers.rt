// Bytes as numbers, little-endian and big-endian: the library's own, in the words of the papers.
// A function for each width: one over all would need a trait of our own with a block for each, which is no plainer.
#![tactic(auto, using(crate::proofs::NumberLaws::le_written, crate::proofs::NumberLaws::be_written), unfolding(crate::specs::Numbers::le_number, crate::specs::Numbers::be_number))]

ghost use Rattle.std.specs.Prelude.{◌≡◌, take, drop};
ghost use Rattle.octets.specs.Numbers.{le_number, le_bytes, be_number, be_bytes};

use crate::runs::bytes_at;

// The number of eight bytes, the lowest first.
pub fn le64(bytes: [u8; 8]) -> u64
    ensures { result ≡ le_number bytes }
{
    u64::from_le_bytes(bytes)
}

// The number of four bytes, the lowest first.
pub fn le32(bytes: [u8; 4]) -> u32
    ensures { result ≡ le_number bytes }
{
    u32::from_le_bytes(bytes)
}

// The number of the eight bytes from a place on, the lowest first. One that is past the end adds nothing.
pub fn word_at(s: &[u8], at: usize) -> u64
    ensures { result ≡ le_number (take 8 (drop at s.now)) }
{
    le64(bytes_at(s, at))
}

// The eight bytes of a number, the lowest first.
pub fn le64_bytes(x: u64) -> [u8; 8]
    ensures { result ≡ le_bytes 8 x }
{
    u64::to_le_bytes(x)
}

// The four bytes of a number, the lowest first.
pub fn le32_bytes(x: u32) -> [u8; 4]
    ensures { result ≡ le_bytes 4 x }
{
    u32::to_le_bytes(x)
}

// The number of two bytes, the highest first.
pub fn be16(bytes: [u8; 2]) -> u16
    ensures { result ≡ be_number bytes }
{
    u16::from_be_bytes(bytes)
}

// The number of four bytes, the highest first.
pub fn be32(bytes: [u8; 4]) -> u32
    ensures { result ≡ be_number bytes }
{
    u32::from_be_bytes(bytes)
}

// The number of eight bytes, the highest first.
pub fn be64(bytes: [u8; 8]) -> u64
    ensures { result ≡ be_number bytes }
{
    u64::from_be_bytes(bytes)
}

// The four bytes of a number, the highest first.
pub fn be32_bytes(x: u32) -> [u8; 4]
    ensures { result ≡ be_bytes 4 x }
{
    u32::to_be_bytes(x)
}
