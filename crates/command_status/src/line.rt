//! Lines of text.

ghost use Rattle.std.specs.Prelude.{◌≡◌, ◌+◌, ◌≤◌, ◌++◌, length, decimal};
ghost use Rattle.arrayvec.specs.ArrayVec.{array_vec_len};

use arrayvec::ArrayVec;
use itoa::Buffer;

/// A line of text, without its own memory.
pub type Line = ArrayVec<u8, 128>;

/// Puts a text behind a line.
pub fn add(line: &mut Line, text: &[u8])
    requires { array_vec_len line.old + length text.now ≤ 128 }
    ensures items { line.new.items ≡ line.old.items ++ text.now }
    ensures len { array_vec_len line.new ≡ array_vec_len line.old + length text.now }
{
    line.try_extend_from_slice(text).unwrap();
}

/// Puts a number behind a line, in decimal digits.
pub fn add_number(line: &mut Line, n: u64)
    requires { array_vec_len line.old + 20 ≤ 128 }
    ensures items { line.new.items ≡ line.old.items ++ decimal n }
    ensures len { array_vec_len line.new ≤ array_vec_len line.old + 20 }
{
    let mut digits = Buffer::new();
    add(line, digits.format(n).as_bytes());
}
