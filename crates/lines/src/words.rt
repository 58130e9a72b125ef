// The words of the keys.

ghost use Rattle.std.specs.Prelude.{◌≡◌};
ghost use Rattle.text.specs.Text.{Written, appended};
ghost use Rattle.lines.specs.Words.{word};

use table::keys;
use text::append;

// Appends the word of the key; a number that is no key's has none.
// Output and place are no struct: `appended .. out.old at` in the contract takes both.
// A match, no list of words: each word is copied as the literal that it is.
#[tactic(auto, using(crate::specs::LineLaws::no_word, text::specs::TextLaws::appended_none), unfolding(crate::specs::Words::word, crate::specs::Words::words))]
pub fn append_word(out: &mut [u8], at: usize, key: usize) -> usize
    ensures { ◌≡◌ {A = Written} (record { list = out.new; end = result }) (appended (word key) out.old at) }
{
    match key {
        keys::PLAN => append(out, at, b"plan"),
        keys::PROCESSORS => append(out, at, b"processors"),
        keys::TASKS => append(out, at, b"tasks"),
        keys::TASK => append(out, at, b"task"),
        keys::PERIOD => append(out, at, b"period"),
        keys::DEADLINE => append(out, at, b"deadline"),
        keys::STEPS => append(out, at, b"steps"),
        keys::PROCESSOR => append(out, at, b"processor"),
        keys::PRIORITY => append(out, at, b"priority"),
        keys::TIME => append(out, at, b"time"),
        _ => at,
    }
}
