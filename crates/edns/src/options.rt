// Options one after the other.
ghost use Rattle.std.specs.Prelude.{◌≡◌, not};
ghost use Rattle.octets.specs.Refusals.{is_none};
ghost use Rattle.edns.specs.Options.{option_at, options_from, cookie_in, is_cookie_length};
ghost use Rattle.edns.specs.Answers.{found_of, listing_of};

use crate::{Cookie, EdnsOption, Past};

// The option at a place of an OPT record's data. Its body stands behind OPTION-LENGTH, and this behind the 2 bytes of
// OPTION-CODE.
#[tactic(auto, using(octets::proofs::ReadLaws::part_begins), unfolding(crate::specs::Options::option_at))]
pub fn option_at(rdata: &[u8], at: usize) -> Option<EdnsOption>
    ensures { found_of result ≡ option_at rdata.now at }
{
    let end = octets::part_end(rdata, at, 2)?;
    Some(EdnsOption {
        code: octets::be16([rdata[at], rdata[at + 1]]),
        start: at + 4,
        end,
    })
}

// Whether the options from a place on are all within the data. An option says where the next one is, so that no `for`
// fits, here and below.
fn is_rest_whole(rdata: &[u8], from: usize) -> bool
    ensures { result ≡ not (is_none (options_from rdata.now from)) }
{
    let mut at = from;
    while at < rdata.len() {
        let Some(next) = option_at(rdata, at) else {
            return false;
        };
        at = next.end;
    }
    true
}

// Walks all the options of an OPT record's data: whether one is past it, and where the first COOKIE body lies. What is found is not
// carried through the loop, which would wait for it at each option.
pub fn walk(rdata: &[u8]) -> Result<Option<Cookie>, Past>
    ensures { listing_of result ≡ cookie_in rdata.now }
{
    let mut at = 0;
    while at < rdata.len() {
        let next = option_at(rdata, at).ok_or(Past)?;
        if next.code == 10 {
            if !is_rest_whole(rdata, next.end) {
                return Err(Past);
            }
            return Ok(Some(Cookie {
                start: next.start,
                end: next.end,
            }));
        }
        at = next.end;
    }
    Ok(None)
}

// Whether a COOKIE body may have so many bytes: 8, or 16 to 40.
#[tactic(auto, unfolding(crate::specs::Options::is_cookie_length))]
pub fn is_cookie_length(n: usize) -> bool
    ensures { result ≡ is_cookie_length n }
{
    matches!(n, 8 | 16..=40)
}
