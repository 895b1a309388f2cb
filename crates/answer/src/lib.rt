// What every call answers, and why calls refuse.
#![tactic(auto)]

ghost use Rattle.std.specs.Prelude.{◌≡◌, ℕ, None, Result};
ghost use Rattle.answer.specs.declared.Refusal.{Refusal};
ghost use Rattle.answer.specs.Answers.{number_of_refusal, answer_of, refused_at, answer_at};

// Why a call refuses: the rows of document 01's table, by their numbers.
#[derive(Clone, Copy, Debug, PartialEq, Eq)]
pub enum Refusal {
    // Every call: n is not 1 to 64.
    Vertices = 1,
    // Every call: the sheet isn't n + n × n words.
    Length = 2,
    // Vertices named: one is n or more.
    Vertex = 3,
    // Masks, and rows in a recount: a bit at n or above.
    StrayBit = 4,
    // Edges to insert: from a vertex to itself.
    SelfLoop = 5,
    // Edges to insert: already there.
    Present = 6,
    // Edge to delete or go without: not there.
    Absent = 7,
    // Insertion and recount: a cycle.
    Cycle = 8,
    // Plan read or written: the sheet is not valid. Path of a rank: no edge fits, n vertices without arriving, or k not 0 on
    // arriving.
    NotValid = 9,
    // Buffer written: under n bytes for a path, under 8 bytes an edge for a plan.
    Buffer = 10,
    // Path of a rank: k is not below the count.
    NoSuchPath = 11,
    // Rank of a path: no vertices, more than n, or two neighbours without an edge.
    NoPath = 12,
    // Plan read: the length is not a multiple of 8, or over 32,768 bytes.
    PlanLength = 13,
    // Each record: not of the form.
    Record = 14,
}

impl Refusal {
    // Internal: the number of its row.
    pub fn number(self) -> u64
        ensures { result ≡ number_of_refusal self }
    {
        self as u64
    }
}

// An answer: the number is 0 for accepted, else that of the refusal; the place is the refused record of a plan, from 1 up,
// else 0; the value is what was asked for, and 0 when refused. It crosses to C as three words, so the refusal is a number in it.
#[repr(C)]
#[derive(Clone, Copy, Debug, PartialEq, Eq)]
pub struct Answer {
    pub number: u64,
    pub place: u64,
    pub value: u64,
}

// Why a call refuses, and the place of the record of a plan that it refuses, from 1 up; `None` where it names no record.
#[derive(Clone, Copy, Debug, PartialEq, Eq)]
pub struct RefusedAt {
    pub refusal: Refusal,
    pub place: Option<u64>,
}

// Internal: a refusal that names no record.
impl From<Refusal> for RefusedAt {
    ghost from_gives = { λ refusal made. made ≡ refused_at refusal None };

    fn from(refusal: Refusal) -> RefusedAt {
        RefusedAt {
            refusal,
            place: None,
        }
    }
}

// Internal: a call that reads records is accepted with a value, or refused.
impl From<Result<u64, RefusedAt>> for Answer {
    ghost from_gives = { λ outcome made. made ≡ answer_at outcome };

    fn from(outcome: Result<u64, RefusedAt>) -> Answer {
        match outcome {
            Ok(value) => Answer {
                number: 0,
                place: 0,
                value,
            },
            Err(refused) => Answer {
                number: refused.refusal.number(),
                place: refused.place.unwrap_or(0),
                value: 0,
            },
        }
    }
}

// Internal: a call that names no record is accepted with a value, or refused.
impl From<Result<u64, Refusal>> for Answer {
    ghost from_gives = { λ outcome made. made ≡ answer_of outcome };

    fn from(outcome: Result<u64, Refusal>) -> Answer {
        outcome.map_err(RefusedAt::from).into()
    }
}

impl Answer {
    // Internal: the outcome of a call that names no record: its value, or why it refuses. Of any other answer it says nothing.
    // Each number has its arm, since no conversion leads from a number to an enum. There is no error for a `TryFrom` to give: a number
    // that is no refusal's is that of an accepted call.
    pub fn outcome(self) -> Result<u64, Refusal>
        ensures { (was : Result ℕ Refusal) → self ≡ answer_of was → result ≡ was }
    {
        match self.number {
            1 => Err(Refusal::Vertices),
            2 => Err(Refusal::Length),
            3 => Err(Refusal::Vertex),
            4 => Err(Refusal::StrayBit),
            5 => Err(Refusal::SelfLoop),
            6 => Err(Refusal::Present),
            7 => Err(Refusal::Absent),
            8 => Err(Refusal::Cycle),
            9 => Err(Refusal::NotValid),
            10 => Err(Refusal::Buffer),
            11 => Err(Refusal::NoSuchPath),
            12 => Err(Refusal::NoPath),
            13 => Err(Refusal::PlanLength),
            14 => Err(Refusal::Record),
            _ => Ok(self.value),
        }
    }
}
