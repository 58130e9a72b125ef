// A number as decimal text.
ghost use Rattle.std.specs.Prelude.{◌≡◌};
ghost use Rattle.text.specs.Text.{Written, appended, decimal};

use crate::append;
use itoa::Buffer;

// Appends the digits of the value, with no leading zero.
// Output and place are no struct: `appended .. out.old at` in the contract takes both.
#[tactic(auto, using(crate::specs::NumeralLaws::decimal_std))]
pub(crate) fn append_decimal(out: &mut [u8], at: usize, value: u64) -> usize
    ensures { ◌≡◌ {A = Written} (record { list = out.new; end = result }) (appended (decimal value) out.old at) }
{
    let mut buffer = Buffer::new();
    append(out, at, buffer.format(value).as_bytes())
}
