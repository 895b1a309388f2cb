// A graph of the input, built by edits from the empty sheet.
use crate::record::Record;
use sheet::{Refusal, Sheet};

// A graph with its sheet.
#[derive(Clone, Copy)]
pub struct Graph<'a> {
    pub vertices: usize,
    pub edges: usize,
    pub sheet: &'a [u64],
}

impl<'a> Graph<'a> {
    // The graph at the start of a text, built in lent words, and the text after it; or the first refusal.
    pub fn read<'t>(
        text: &'t [u8],
        words: &'a mut [u64; Sheet::WORDS],
    ) -> Result<(Graph<'a>, &'t [u8]), Refusal> {
        let Some((Record::Graph { vertices, edges }, rest)) = Record::split_first(text) else {
            return Err(Refusal::Record);
        };
        if Sheet::VERTICES < vertices {
            return Err(Refusal::Vertices);
        }
        let sheet = &mut words[..sheet::layout::word_count(vertices)];
        sheet::empty(vertices, sheet).outcome()?;
        let rest = insert_edges(vertices, sheet, edges, rest)?;
        let graph = Graph {
            vertices,
            edges,
            sheet,
        };
        Ok((graph, rest))
    }
}

// The edges of the first records of a text, inserted, and the text after them; or the first refusal. The words are written, so n stands
// beside them.
fn insert_edges<'t>(
    n: usize,
    sheet: &mut [u64],
    edges: usize,
    text: &'t [u8],
) -> Result<&'t [u8], Refusal> {
    let mut rest = text;
    for _ in 0..edges {
        let Some((Record::Edge { from, to }, after)) = Record::split_first(rest) else {
            return Err(Refusal::Record);
        };
        edit::insert_edge(n, sheet, from, to).outcome()?;
        rest = after;
    }
    Ok(rest)
}
