// What a program in another language links: the exported function, one call of the library `operations` with its very clauses.
#![tactic(auto)]

ghost use Rattle.std.specs.Prelude.{◌≤◌, length};
ghost use Rattle.operations.specs.Runs.{RanIs};

// Runs a list from a fresh state: five numbers an operation, six an answer, as far as both go. Answers how many numbers of `out` were
// written; those behind them stay.
#[unsafe(no_mangle)]
pub extern "C" fn ninotskev_operations(ops: &[u64], out: &mut [u64]) -> usize
    ensures { (result ≤ length out.old) × RanIs ops.now out.old result out.new }
{
    operations::ninotskev_operations(ops, out)
}
