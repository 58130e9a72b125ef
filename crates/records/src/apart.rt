// Records taken apart: a table by value from lists of records.
// Chains and rows apart: the loops differ in the record and in how many there may be, and a trait's constant and ghost for those are no plainer.

ghost use Rattle.std.specs.Prelude.{◌≡◌};
ghost use Rattle.records.specs.Records.{columns_of, with_chains, with_rows};

use crate::getters::{chain_at, row_at};
use columns::columns::{Chain, Columns, Row};

// The columns with these records of tasks, the first 32 at most.
fn with_chains(columns: Columns, chains: &[Chain]) -> Columns
    ensures { result ≡ with_chains columns chains.now }
{
    let count = chains.len().min(32);
    let mut next = columns;
    for i in 0..count {
        next = next.with_chain(i, chain_at(chains, i));
    }
    next
}

// The columns with these records of rows, the first 128 at most.
fn with_rows(columns: Columns, rows: &[Row]) -> Columns
    ensures { result ≡ with_rows columns rows.now }
{
    let count = rows.len().min(128);
    let mut next = columns;
    for i in 0..count {
        next = next.with_row(i, row_at(rows, i));
    }
    next
}

// The columns of a table held as records.
pub fn columns_of(processors: u64, tasks: u64, chains: &[Chain], rows: &[Row]) -> Columns
    ensures { result ≡ columns_of processors tasks chains.now rows.now }
{
    let begun = Columns::blank(processors, tasks);
    let tasked = with_chains(begun, chains);
    with_rows(tasked, rows)
}
