// The records of the input, a line each: a capital letter, a space, two digits, a space, two digits.

// What a record says.
#[derive(Clone, Copy)]
pub enum Record {
    // `N`: a graph begins, of so many vertices and so many edges.
    Graph { vertices: usize, edges: usize },
    // `L`: an edge from a vertex to a vertex.
    Edge { from: usize, to: usize },
}

impl Record {
    // The first record of a text, and the text after it; none if no record is there.
    pub fn split_first(text: &[u8]) -> Option<(Record, &[u8])> {
        let &[kind, b' ', a, b, b' ', c, d, b'\n', ref rest @ ..] = text else {
            return None;
        };
        let first = script::decimal(&[a, b])?;
        let second = script::decimal(&[c, d])?;
        let record = match kind {
            b'N' => Record::Graph {
                vertices: first,
                edges: second,
            },
            b'L' => Record::Edge {
                from: first,
                to: second,
            },
            _ => return None,
        };
        Some((record, rest))
    }
}
