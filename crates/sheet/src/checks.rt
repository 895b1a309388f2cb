// The check that the calls that alter a sheet share.
ghost use Rattle.std.specs.Prelude.{[]};
ghost use Rattle.answer.specs.Table.{First};
ghost use Rattle.answer.specs.Answers.{number_of};
ghost use Rattle.sheet_theory.specs.Lent.{lent};
ghost use Rattle.sheet_theory.specs.Conditions.{altering};

use crate::view::View;
use answer::Refusal;

// Internal: why a call that alters a sheet refuses before it looks at anything else: 1 or 2. It stands beside `View::of` since the contracts
// have a name of its own for what these calls look for.
pub fn altering(n: usize, sheet: &[u64]) -> Result<(), Refusal>
    ensures { First (altering n (lent sheet.now) []) (number_of result) }
{
    View::of(n, sheet)?;
    Ok(())
}
