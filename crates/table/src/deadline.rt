// The deadline in force of a task, for the bounds that hold it against a chain's bound and for the report that prints it.

ghost use Rattle.std.specs.Prelude.{◌≡◌};
ghost use Rattle.table.specs.Plan.{deadline_from};

// The deadline that counts: a deadline of 0 means the period.
pub fn in_force(period: u64, deadline: u64) -> u64
    ensures { result ≡ deadline_from period deadline }
{
    if deadline == 0 { period } else { deadline }
}
