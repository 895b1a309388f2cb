// Reads graphs from standard input, builds each by edits from the empty sheet, and prints its paths between every two vertices, by
// number. The program knows no answer; the file stdout beside it does, and its lines are by other hands. A graph that is refused
// ends the program with a line that says so, by the numbers of document 01's table: 14 for a record that is not of the form. An input of
// 65,536 bytes or more is not taken.
#![tactic(auto)]

mod built;
mod list;
mod record;

use built::Graph;
use sheet::Sheet;
use std::io;

// The graphs of a text, listed one after the other, up to the first that is refused.
fn list_graphs(rt: &impl Print, text: &[u8]) -> io::Result<()> {
    let mut rest = text;
    for number in 1..u64::MAX {
        if rest.is_empty() {
            break;
        }
        let mut words = [0; Sheet::WORDS];
        match Graph::read(rest, &mut words) {
            Ok((graph, after)) => {
                graph.list(rt, number)?;
                rest = after;
            }
            Err(refusal) => return println!(rt; "orchard {number} refused {}", refusal.number()),
        }
    }
    Ok(())
}

fn main(rt: HostRuntime) -> io::Result<()> {
    script::with_input(&rt, |text| list_graphs(&rt, text))
}
