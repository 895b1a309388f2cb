// The plan reader: an iterator over what the records of a plan say.
ghost use Rattle.std.specs.Prelude.{◌≡◌, ◌*◌, ◌<◌, ◌^◌, IfSome};
ghost use Rattle.record.specs.Record.{record_bytes};
ghost use Rattle.std.specs.Iterator.{item_count};
ghost use Rattle.record.specs.Reader.{records_left, GivesAt, Reads};

use crate::{Malformed, Record, decode};

// A plan's bytes, and the record that the reader has got to, from 0 up.
#[derive(Drop)]
pub struct PlanReader<'a> {
    pub plan: &'a [u8],
    pub record: usize,
}

impl<'a> PlanReader<'a> {
    // A reader of a plan that has got to the record k.
    pub fn at(plan: &'a [u8], k: usize) -> PlanReader<'a>
        ensures { (result.plan ≡ plan.entry) × (result.«record» ≡ k) }
    {
        PlanReader { plan, record: k }
    }
}

// What one record after the other says, and `None` once no byte is left.
impl<'a> Iterator for PlanReader<'a> {
    type Item = Result<Record, Malformed>;

    ghost next_gives = { Reads };

    ghost remaining = { item_count records_left };

    fn next(&mut self) -> Option<Result<Record, Malformed>> {
        let reading = reading_at(self.plan, self.record)?;
        self.record += 1;
        Some(reading)
    }
}

// The work of `next`: `None` where the plan has no byte left for the record k, from 0 up; else what that record says, which is `Malformed`
// too where the end of the plan cuts it off.
fn reading_at(plan: &[u8], k: usize) -> Option<Result<Record, Malformed>>
    ensures gives { GivesAt plan.now k result }
    ensures within { IfSome result (λ _. record_bytes * k < 2 ^ 64) }
{
    if plan.len().div_ceil(Record::BYTES) <= k {
        return None;
    }
    let start = Record::BYTES * k;
    Some(decode(&plan[start..]))
}
