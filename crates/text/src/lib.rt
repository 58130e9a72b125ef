// Appending bytes, decimal numbers and `key=value` lines to a lent list of bytes. Each function writes from the place `at` on, as far as
// the list has room, and answers the place behind the last byte that it wrote.
// Output and place are no struct: `appended .. out.old at` in each contract takes both.
#![tactic(auto)]

mod decimal;

ghost use Rattle.std.specs.Prelude.{◌≡◌, ◌+◌, ◌≤◌, length, [], ◌∷◌, ◌++◌};
ghost use Rattle.text.specs.Text.{Written, appended, decimal, line, minus_line};

use decimal::append_decimal;

// Stores the bytes from `at` on, where the list has room for all of them.
// Byte by byte, no `copy_from_slice`: that is a call of memmove, which a host in C would have to bring. Of a literal, this copies so many
// bytes as the code says, with no call.
fn store(out: &mut [u8], at: usize, bytes: &[u8])
    requires { at + length bytes.now ≤ length out.old }
    ensures { ◌≡◌ {A = Written} (record { list = out.new; end = at + length bytes.now }) (appended bytes.now out.old at) }
{
    for i in 0..bytes.len() {
        out[at + i] = bytes[i];
    }
}

// Appends the bytes.
#[tactic(auto, using(crate::specs::TextLaws::appended_full))]
pub fn append(out: &mut [u8], at: usize, bytes: &[u8]) -> usize
    ensures { ◌≡◌ {A = Written} (record { list = out.new; end = result }) (appended bytes.now out.old at) }
{
    if out.len() <= at {
        return at;
    }
    let room = out.len() - at;
    if bytes.len() <= room {
        store(out, at, bytes);
        return at + bytes.len();
    }
    store(out, at, &bytes[..room]);
    out.len()
}

// Appends `key=value` and an LF.
#[tactic(auto, unfolding(crate::specs::Text::line))]
pub fn append_line(out: &mut [u8], at: usize, key: &[u8], value: u64) -> usize
    ensures { ◌≡◌ {A = Written} (record { list = out.new; end = result }) (appended (line key.now value) out.old at) }
{
    append_marked(out, at, key, b"=", value)
}

// Appends `key=-value` and an LF.
#[tactic(auto, unfolding(crate::specs::Text::minus_line))]
pub fn append_minus_line(out: &mut [u8], at: usize, key: &[u8], value: u64) -> usize
    ensures { ◌≡◌ {A = Written} (record { list = out.new; end = result }) (appended (minus_line key.now value) out.old at) }
{
    append_marked(out, at, key, b"=-", value)
}

// Appends the key, the mark that stands before the value, the value and an LF.
// Inlined whole, so that a key that is a literal is stored as one.
#[inline(always)]
#[tactic(auto, using(crate::specs::TextLaws::appended_then))]
fn append_marked(out: &mut [u8], at: usize, key: &[u8], mark: &[u8], value: u64) -> usize
    ensures { ◌≡◌ {A = Written} (record { list = out.new; end = result })
        (appended (key.now ++ (mark.now ++ decimal value) ++ (10 ∷ [])) out.old at) }
{
    let behind_key = append(out, at, key);
    let behind_mark = append(out, behind_key, mark);
    let behind_value = append_decimal(out, behind_mark, value);
    append(out, behind_value, b"\n")
}
