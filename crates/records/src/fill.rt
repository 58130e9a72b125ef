// Records laid: lists of records from a table by value.

ghost use Rattle.std.specs.Prelude.{◌≡◌, ℕ, length, min};
ghost use Rattle.facts.specs.Filled.{filled};
ghost use Rattle.columns.specs.declared.columns.Columns.{Columns};

use columns::columns::{Chain, Columns, Row};

// A record of a table by value.
pub trait Record: Copy {
    // The table's record of a place.
    ghost of: { Columns → ℕ → Self };

    fn of(columns: &Columns, place: usize) -> Self
        ensures { result ≡ of columns.now place };
}

impl Record for Chain {
    ghost use Rattle.columns.specs.Columns.{chain_of};

    ghost of = { chain_of };

    fn of(columns: &Columns, place: usize) -> Chain {
        columns.chain_of(place)
    }
}

impl Record for Row {
    ghost use Rattle.columns.specs.Columns.{row_of};

    ghost of = { row_of };

    fn of(columns: &Columns, place: usize) -> Row {
        columns.row_of(place)
    }
}

// Lays the table's first records into the list, this many at most; the rest of the list stays.
pub fn lay<R: Record>(list: &mut [R], count: usize, columns: &Columns)
    ensures { list.new ≡ filled (R.of columns.now) (min count (length list.old)) list.old }
{
    let most = count.min(list.len());
    for i in 0..most {
        list[i] = R::of(columns, i);
    }
}
