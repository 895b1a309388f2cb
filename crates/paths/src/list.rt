// The paths of a graph, listed: each comes from `query::unrank`, and `query::rank` has to give its rank back.
use crate::built::Graph;
use sheet::{Refusal, Sheet};
use std::{fmt, io};

// What `query::unrank` answers in place of a path.
#[derive(Drop)]
enum Unranked {
    // It refuses.
    Refused(Refusal),
    // It has written so many vertices, more than a path has.
    Wrote(u64),
}

impl fmt::Display for Unranked {
    fn fmt<W: fmt::Write>(&self, f: &mut fmt::Formatter<W>) -> fmt::Result {
        match self {
            Unranked::Refused(refusal) => write!(f, "unrank refused {}", refusal.number()),
            Unranked::Wrote(count) => write!(f, "unrank wrote {count}"),
        }
    }
}

impl From<Refusal> for Unranked {
    fn from(refusal: Refusal) -> Unranked {
        Unranked::Refused(refusal)
    }
}

impl Graph<'_> {
    // The vertices of a path by its ends and its rank, in lent bytes.
    fn path<'b>(
        &self,
        from: usize,
        to: usize,
        rank: u64,
        bytes: &'b mut [u8; Sheet::VERTICES],
    ) -> Result<&'b [u8], Unranked> {
        let answer = query::unrank(self.vertices, self.sheet, from, to, rank, bytes);
        let count = answer.outcome()?;

        // The count is cast: from `u64` to `usize` there is no `From`.
        bytes.get(..count as usize).ok_or(Unranked::Wrote(count))
    }

    // The line of a path: its ends, its rank, its vertices, of two digits each. A rank that is not given back has a line too.
    fn print_path(
        &self,
        rt: &impl Print,
        from: usize,
        to: usize,
        rank: u64,
        vertices: &[u8],
    ) -> io::Result<()> {
        print!(rt; "{from:02} {to:02} {rank}:")?;
        for vertex in vertices {
            print!(rt; " {vertex:02}")?;
        }
        println!(rt)?;
        let back = query::rank(self.vertices, self.sheet, vertices);
        if back.outcome() != Ok(rank) {
            println!(rt; "rank answered {}", back.value)?;
        }
        Ok(())
    }

    // The paths from one vertex to another, by ascending rank, until there is none.
    fn list_between(&self, rt: &impl Print, from: usize, to: usize) -> io::Result<()> {
        for rank in 0..u64::MAX {
            let mut bytes = [0; Sheet::VERTICES];
            match self.path(from, to, rank, &mut bytes) {
                Ok(vertices) => self.print_path(rt, from, to, rank, vertices)?,
                Err(Unranked::Refused(Refusal::NoSuchPath)) => break,
                Err(unranked) => return println!(rt; "{unranked}"),
            }
        }
        Ok(())
    }

    // The paths from one vertex to each.
    fn list_from(&self, rt: &impl Print, from: usize) -> io::Result<()> {
        for to in 0..self.vertices {
            self.list_between(rt, from, to)?;
        }
        Ok(())
    }

    // The paths from each vertex to each, under a heading with the number of the graph.
    pub fn list(&self, rt: &impl Print, number: u64) -> io::Result<()> {
        println!(rt;
            "orchard {number} stations {} pipes {}",
            self.vertices, self.edges
        )?;
        for from in 0..self.vertices {
            self.list_from(rt, from)?;
        }
        Ok(())
    }
}
