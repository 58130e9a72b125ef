// The keys of a plan file by number, in the order in which a plan gives them.
// Numbers, no enum: the number selects range test and next key (document 01's form); `in_range`, `line_at`, `append_word` answer for any.

pub const PLAN: usize = 0;

pub const PROCESSORS: usize = 1;

pub const TASKS: usize = 2;

pub const TASK: usize = 3;

pub const PERIOD: usize = 4;

pub const DEADLINE: usize = 5;

pub const STEPS: usize = 6;

pub const PROCESSOR: usize = 7;

pub const PRIORITY: usize = 8;

pub const TIME: usize = 9;

// How many keys there are: the number that is no key's.
pub const KEYS: usize = 10;
