// Least and most value of each key.

ghost use Rattle.std.specs.Prelude.{◌≡◌};
ghost use Rattle.table.specs.Ranges.{in_range, range_of};

use crate::keys;

#[derive(Clone, Copy)]
pub struct Range {
    pub least: u64,
    pub most: u64,
}

// The one fixed table by key. `task` and `processor` take the plan's own and have their outermost limits here.
static RANGES: [Range; 10] = [
    Range { least: 1, most: 1 },
    Range { least: 1, most: 16 },
    Range { least: 1, most: 32 },
    Range { least: 1, most: 32 },
    Range {
        least: 1,
        most: 1000000,
    },
    Range {
        least: 0,
        most: 160000000,
    },
    Range { least: 1, most: 16 },
    Range { least: 1, most: 16 },
    Range {
        least: 1,
        most: 255,
    },
    Range {
        least: 1,
        most: 1000000,
    },
];

// The range of a key. The plan's own number is the next task's number for `task`, the plan's processors for `processor`.
fn range_of(key: usize, own: u64) -> Range
    ensures { result ≡ range_of key own }
{
    if key == keys::TASK {
        return Range {
            least: own,
            most: own,
        };
    }
    if key == keys::PROCESSOR {
        return Range {
            least: 1,
            most: own,
        };
    }
    if keys::KEYS <= key {
        return Range { least: 1, most: 0 };
    }
    RANGES[key]
}

// Whether the value is in the range of its key.
#[tactic(auto, unfolding(crate::specs::Ranges::in_range))]
pub fn in_range(key: usize, own: u64, value: u64) -> bool
    ensures { result ≡ in_range key own value }
{
    let range = range_of(key, own);
    if value < range.least {
        return false;
    }
    value <= range.most
}
