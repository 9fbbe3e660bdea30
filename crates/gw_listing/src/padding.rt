//! Texts and decimal numbers padded to the width of a column, left or right.

ghost use Rattle.std.specs.Prelude.{◌≡◌, ◌≤◌, ◌<◌, ◌+◌, ◌^◌, ◌∷◌, [], ◌++◌, length, replicate};
ghost use Rattle.std.specs.Fmt.{decimal};
ghost use Rattle.arrayvec.specs.ArrayString.{array_string_len};
ghost use Rattle.gw_listing.specs.Row.{space, left, right};

use arrayvec::ArrayString;

// Adds spaces to a line.
fn push_spaces(line: &mut ArrayString<96>, count: usize)
    requires { array_string_len line.old + count ≤ 96 }
    ensures bytes { line.new.bytes ≡ line.old.bytes ++ replicate count space }
    ensures len { array_string_len line.new ≡ array_string_len line.old + count }
{
    for _i in 0..count {
        line.push(' ');
    }
}

// Adds a text, left-aligned in a column of this width.
pub(crate) fn push_left(line: &mut ArrayString<96>, width: usize, text: &str)
    requires fits { length text.now ≤ width }
    requires room { array_string_len line.old + width ≤ 96 }
    ensures bytes { line.new.bytes ≡ line.old.bytes ++ left width text.now }
    ensures len { array_string_len line.new ≡ array_string_len line.old + width }
{
    line.push_str(text);
    push_spaces(line, width - text.len());
}

// The number of decimal digits of a number.
fn decimal_len(n: u32) -> usize
    ensures { result ≡ length (decimal n) }
{
    if n < 10 { 1 } else { decimal_len(n / 10) + 1 }
}

// Adds a decimal digit to a line.
pub(crate) fn push_digit(line: &mut ArrayString<96>, digit: u32)
    requires digit { digit < 10 }
    requires room { array_string_len line.old + 1 ≤ 96 }
    ensures bytes { line.new.bytes ≡ line.old.bytes ++ (48 + digit) ∷ [] }
    ensures len { array_string_len line.new ≡ array_string_len line.old + 1 }
{
    line.push((b'0' + digit as u8) as char);
}

// Adds a number in decimal. (By hand: `write!` can fail, and a line cannot.)
fn push_decimal(line: &mut ArrayString<96>, n: u32)
    requires { array_string_len line.old + length (decimal n) ≤ 96 }
    ensures { line.new.bytes ≡ line.old.bytes ++ decimal n }
{
    if n < 10 {
        push_digit(line, n);
        return;
    }
    push_decimal(line, n / 10);
    push_digit(line, n % 10);
}

// Adds a number, right-aligned in a column of this width.
pub(crate) fn push_right(line: &mut ArrayString<96>, width: usize, n: u32)
    requires fits { length (decimal n) ≤ width }
    requires room { array_string_len line.old + width ≤ 96 }
    ensures bytes { line.new.bytes ≡ line.old.bytes ++ right width (decimal n) }
    ensures len { array_string_len line.new ≡ array_string_len line.old + width }
{
    push_spaces(line, width - decimal_len(n));
    push_decimal(line, n);
}
