// Numbers put to the right into the columns of a line.
#![tactic(auto, unfolding(crate::specs::Inner::Digits::column_byte, crate::specs::Inner::Digits::no_digit, lines::specs::Sheet::space))]

ghost use Rattle.std.specs.Prelude.{◌≡◌, ◌+◌, leb, length};
ghost use Rattle.lines.specs.Printing.{decimal};
ghost use Rattle.lines.specs.Sheet.{to_right};
ghost use Rattle.buffer.specs.Puts.{PutIf};
ghost use Rattle.columns.specs.Inner.Digits.{column_byte};

// The byte in the last column that is left, where `rest` is left of a number: its last digit, or a space where the digits have begun and none is left.
fn column_byte(begun: bool, rest: u64) -> u8
    ensures { result ≡ column_byte begun rest }
{
    if begun && rest == 0 {
        b' '
    } else {
        b'0' + (rest % 10) as u8
    }
}

// Puts the digits of n to the right into so many columns, the last digit first; where the columns end. Where there is no room for them nothing is put,
// and that is `at`. What may not change: the clause says each byte, of which the library's `Display` with a width ensures none.
pub fn put_right(out: &mut [u8], at: usize, width: usize, n: u64) -> usize
    ensures { let fits = leb (at + width) (length out.old) in
        PutIf fits width (to_right width (decimal n)) out.old at result out.new }
{
    if !buffer::room_for(width, at, out.len()) {
        return at;
    }
    let mut rest = n;
    for left in (0..width).rev() {
        out[at + left] = column_byte(left + 1 < width, rest);
        rest /= 10;
    }
    at + width
}
