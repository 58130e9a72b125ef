// Unsigned 64-bit little-endian words of eight bytes in lent lists of bytes: one word, and fields of words at equal steps.
#![tactic(auto)]

ghost use Rattle.std.specs.Prelude.{◌≡◌, ℕ, ◌+◌, ◌*◌, ◌≤◌, ◌<◌, length};
ghost use Rattle.words.specs.Words.{word, with_word, field_within, gathered, with_field};

use std::convert::TryFrom;

// Word k of the list; 0 where the word does not stand whole within it.
// No Option: `get` answers for every k, and `word` says 0 there.
#[tactic(auto, using(crate::specs::WordsLaws::word_outside))]
pub fn get(list: &[u8], k: usize) -> u64
    ensures { result ≡ word list.now k }
{
    if k < list.len() / 8 { read(list, k) } else { 0 }
}

// Sets word k; a word that does not stand whole within the list is left alone.
#[tactic(auto, using(crate::specs::WordsLaws::with_word_outside))]
pub fn put(list: &mut [u8], k: usize, value: u64)
    ensures { list.new ≡ with_word list.old k value }
{
    if k < list.len() / 8 {
        write(list, k, value);
    }
}

// Reads the field of count words at from, from + step, from + 2 step, .. into the first count numbers of out.
// Where the field does not stand within the list, or out is shorter than count, out is left alone.
// List, from, step and count are no struct, here and below: `gathered`, `with_field` and `field_within` in the contracts take each.
#[tactic(auto, using(crate::specs::FieldsLaws::field_at, facts::specs::FilledLaws::filled_none, crate::specs::FieldsLaws::gathered_short, crate::specs::FieldsLaws::gathered_outside))]
pub fn get_field(list: &[u8], from: usize, step: usize, count: usize, out: &mut [u64])
    ensures { out.new ≡ gathered list.now from step count out.old }
{
    if out.len() < count {
        return;
    }
    if field_within(list, from, step, count) {
        for i in 0..count {
            out[i] = read(list, from + step * i);
        }
    }
}

// Sets the words of the field of count words at from, from + step, from + 2 step, .. to the first count numbers of values.
// Where the field does not stand within the list, or values is shorter than count, the list is left alone.
#[tactic(auto, using(crate::specs::FieldsLaws::field_at, crate::specs::FieldsLaws::with_words_none, crate::specs::FieldsLaws::with_words_more, crate::specs::FieldsLaws::with_field_short, crate::specs::FieldsLaws::with_field_outside, crate::specs::FieldsLaws::with_field_whole))]
pub fn put_field(list: &mut [u8], from: usize, step: usize, count: usize, values: &[u64])
    ensures { list.new ≡ with_field list.old from step count values.now }
{
    if values.len() < count {
        return;
    }
    if field_within(list, from, step, count) {
        for i in 0..count {
            write(list, from + step * i, values[i]);
        }
    }
}

// Whether the field stands within the list. Its last word is compared by a quotient, since the product may not fit.
#[tactic(auto, using(crate::specs::FieldsLaws::field_none, crate::specs::FieldsLaws::field_past, crate::specs::FieldsLaws::field_last, crate::specs::FieldsLaws::field_quotient))]
fn field_within(list: &[u8], from: usize, step: usize, count: usize) -> bool
    ensures { result ≡ field_within list.now from step count }
{
    if count == 0 {
        return true;
    }
    let words = list.len() / 8;
    if words <= from {
        return false;
    }
    if count == 1 {
        return true;
    }
    step <= (words - 1 - from) / (count - 1)
}

// Word k, which stands whole within the list.
#[tactic(auto, using(crate::specs::WordsLaws::word_of_le))]
fn read(list: &[u8], k: usize) -> u64
    requires { 8 * k + 8 ≤ length list.now }
    ensures { result ≡ word list.now k }
{
    match <[u8; 8]>::try_from(&list[8 * k..8 * k + 8]) {
        Ok(bytes) => u64::from_le_bytes(bytes),
        // Eight bytes are always eight: the arm is never taken, and asks for no panic.
        Err(_) => 0,
    }
}

// Sets word k, which stands whole within the list.
#[tactic(auto, using(crate::specs::WordsLaws::with_word_of_le))]
fn write(list: &mut [u8], k: usize, value: u64)
    requires { 8 * k + 8 ≤ length list.old }
    ensures { list.new ≡ with_word list.old k value }
{
    list[8 * k..8 * k + 8].copy_from_slice(&value.to_le_bytes());
}
