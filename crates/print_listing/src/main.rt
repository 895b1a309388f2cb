// Reads a plan from standard input and prints its listing.
#![tactic(auto)]

use listing::Listing;
use std::io;

fn main(rt: HostRuntime) -> io::Result<()> {
    let mut input = listing::input_buffer();
    let count = script::fill(&mut rt.reader(), &mut input)?;
    let mut out = [0u8; Listing::BYTES];
    let length = listing::list(&input[..count], &mut out);
    rt.write_all(&out[..length])
}
