// How much a plan may have (document 01, "The plan on paper").

// At most so many tasks.
pub const MOST_TASKS: u64 = 32;

// At most so many rows in all.
pub const MOST_ROWS: u64 = 128;
