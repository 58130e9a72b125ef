// What the analysis of a plan finds, as the report reads it.

ghost use Rattle.std.specs.Prelude.{◌≡◌};
ghost use Rattle.bounds.specs.Held.{lists_in};
ghost use Rattle.table.specs.Table.{Table};
ghost use Rattle.report.specs.BoundedLaws.{bounded};
ghost use Rattle.report.specs.Findings.{listing_of};

use bounds::lists::BoundLists;

// How many rows the plan has; each row's period, busy length, instances and bound; each chain's bound and slack; and
// whether the plan is accepted.
// Lists in parallel, as `BoundLists` lends them and `Listing` (specs/Listed.antt) names them.
#[derive(Clone, Copy)]
pub(crate) struct Findings<'a> {
    pub(crate) rows: usize,
    pub(crate) periods: &'a [u64],
    pub(crate) busy: &'a [u64],
    pub(crate) instances: &'a [u64],
    pub(crate) bounds: &'a [u64],
    pub(crate) chains: &'a [u64],
    pub(crate) slack: &'a [i64],
    // 1 or 0: the number that `bound` answers and the report prints.
    pub(crate) accepted: u64,
}

impl<'a> Findings<'a> {
    // A plan's rows with their periods, and what its bounds left in these lists.
    pub(crate) fn of(
        rows: usize,
        periods: &'a [u64],
        lists: &'a BoundLists<'_>,
        accepted: u64,
    ) -> Findings<'a>
        ensures { (U : Table) → listing_of U result ≡ bounded U rows periods.now (lists_in lists.now) accepted }
    {
        Findings {
            rows,
            periods,
            busy: lists.busy,
            instances: lists.instances,
            bounds: lists.bounds,
            chains: lists.chains,
            slack: lists.slack,
            accepted,
        }
    }
}
