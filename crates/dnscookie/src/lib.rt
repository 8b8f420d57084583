// The library for C: include/dnscookie.h says it in C's words. Each function that it names is thin over the crates below
// and takes every argument: numbers, and runs of bytes with their lengths. What C can't hand over as it is meant, such
// as a secret that is not 16 bytes, is refused with a number of its own (specs/Words). Nothing is kept between calls.
// dnscookie_c exports them; dnscookie_find is a crate of its own.
#![tactic(auto)]

mod arguments;
mod cookies;
mod ledgers;
mod respond;
mod words;

pub use cookies::{dnscookie_judge, dnscookie_make, dnscookie_siphash24};
pub use ledgers::{
    dnscookie_ledger_fresh, dnscookie_ledger_line, dnscookie_ledger_secrets, dnscookie_ledger_step,
};
pub use respond::dnscookie_respond;
