// Thin getters: one record of a lent list.
// Chains and rows apart: the bodies, a line each, differ in the record alone, and a trait's constant and ghost for it are no plainer.

ghost use Rattle.std.specs.Prelude.{◌≡◌};
ghost use Rattle.records.specs.Records.{chain_at, row_at};

use columns::columns::{Chain, NO_CHAIN, NO_ROW, Row};

// The record of the task at this place of the list, counted from 0; all numbers are 0 past the end.
pub fn chain_at(chains: &[Chain], place: usize) -> Chain
    ensures { result ≡ chain_at chains.now place }
{
    chains.get(place).copied().unwrap_or(NO_CHAIN)
}

// The record of the row at this place of the list, counted from 0; all numbers are 0 past the end.
pub fn row_at(rows: &[Row], place: usize) -> Row
    ensures { result ≡ row_at rows.now place }
{
    rows.get(place).copied().unwrap_or(NO_ROW)
}
