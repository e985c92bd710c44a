//! What rows start from: a forward index, and the table of its documents' halves.
ghost use Rattle.std.specs.Prelude.{◌≡◌, length, IfOk};
ghost use Rattle.rgb_base.specs.Order.{AreNumbers};
ghost use Rattle.degrees.specs.Counts.{cleared, loaded};
ghost use Rattle.exchange.specs.Halving.{half_a, half_b};

use degrees::Degrees;
use forward_index::Forward;
use small_indexes::index_of;
use std::alloc::Global;
use std::test::Fail;
use std::thread::Threads;

/// The forward index of a small index.
pub(crate) fn forward_of<R: Threads + Sync>(
    rt: &R,
    alloc: Global,
    lists: &str,
    names: &str,
) -> Result<Forward, Fail> {
    let index = index_of(alloc, lists, names)?;
    Ok(Forward::build(rt, alloc, &index, 1, 1)?)
}

/// Counts the halves of these documents in a clear table.
fn load(table: &mut Degrees, forward: &Forward, docs: &[u32])
    requires clear { table.old ≡ cleared forward.now.terms table.old.loads }
    requires numbers { AreNumbers (length forward.now.rows) docs.now }
    ensures loaded { table.new
        ≡ loaded forward.now (half_a docs.now) (half_b docs.now) table.new.loads }
{
    let (a, b) = docs.split_at(docs.len() - docs.len() / 2);
    table.load(forward, a, b);
}

/// The table of the halves of these documents.
pub(crate) fn table_of(alloc: Global, forward: &Forward, docs: &[u32]) -> Result<Degrees, Fail>
    requires numbers { AreNumbers (length forward.now.rows) docs.now }
    ensures { IfOk result (λ table. table
        ≡ loaded forward.now (half_a docs.now) (half_b docs.now) table.loads) }
{
    forward.is_sound();
    let mut table = Degrees::new(alloc, forward.terms())?;
    load(&mut table, forward, docs);
    Ok(table)
}
