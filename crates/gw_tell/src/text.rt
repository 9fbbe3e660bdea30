//! Lines of a word and numbers, put together without taking memory (`Text`).

ghost use Rattle.std.specs.Prelude.{◌≡◌, ◌≤◌, ◌+◌, ◌*◌, ◌++◌, length};
ghost use Rattle.std.specs.List.{flat_map};
ghost use Rattle.gw_tell.specs.Lines.{spaced, number_line};

use arrayvec::ArrayVec;
use itoa::Buffer;

/// Room for the longest text, which is that of the whole state.
pub type Text = ArrayVec<u8, 13_500>;

/// Adds octets to a text.
pub fn push(text: &mut Text, octets: &[u8])
    requires { length text.old.items + length octets.now ≤ 13500 }
    ensures { text.new.items ≡ text.old.items ++ octets.now }
{
    let _ = text.try_extend_from_slice(octets);
}

// Adds a space and a number in decimal.
fn push_number(text: &mut Text, n: u64)
    requires { length text.old.items + 21 ≤ 13500 }
    ensures number { text.new.items ≡ text.old.items ++ spaced n }
    ensures len { length text.new.items ≤ length text.old.items + 21 }
{
    let mut digits = Buffer::new();
    text.push(b' ');
    push(text, digits.format(n).as_bytes());
}

/// Adds numbers in decimal, one space before each.
pub fn push_numbers(text: &mut Text, numbers: &[u64])
    requires { length text.old.items + 21 * length numbers.now ≤ 13500 }
    ensures numbers { text.new.items ≡ text.old.items ++ flat_map spaced numbers.now }
    ensures len { length text.new.items ≤ length text.old.items + 21 * length numbers.now }
{
    for n in numbers {
        push_number(text, *n);
    }
}

/// Adds a line of a word and numbers.
pub fn push_line(text: &mut Text, word: &[u8], numbers: &[u64])
    requires { length text.old.items + (length word.now + 21 * length numbers.now + 1) ≤ 13500 }
    ensures line { text.new.items ≡ text.old.items ++ number_line word.now numbers.now }
    ensures len { length text.new.items
        ≤ length text.old.items + (length word.now + 21 * length numbers.now + 1) }
{
    push(text, word);
    push_numbers(text, numbers);
    text.push(b'\n');
}
