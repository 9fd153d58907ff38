// A field read as a number.
ghost use Rattle.std.specs.Prelude.{◌≡◌, ◌+◌, drop};
ghost use Rattle.lists.specs.Before.{before};
ghost use Rattle.lines.specs.Bytes.{comma};
ghost use Rattle.lines.specs.Fields.{a_number};
ghost use Rattle.lines.specs.Reading.{field};
ghost use Rattle.fields.specs.Numbers.{field_result, field_read};

use crate::COMMA;
use board::Refusal;

// A field's number, or row 14, and where the field ends.
#[derive(Clone, Copy)]
pub struct NumberAt {
    pub number: Result<u32, Refusal>,
    pub end: usize,
}

// The number of a field's bytes: 1 to 10 decimal digits, at most 4,294,967,295.
// Not the library's `from_str`: what may not change, `number_at` refuses `+5` and `00000000001`, which that reads.
fn number_of(bytes: &[u8]) -> Result<u32, Refusal>
    ensures { field_result result ≡ field_read a_number bytes.now }
{
    let digits = bytes.len();
    if digits < 1 {
        return Err(Refusal::NotANumber);
    }
    if 10 < digits {
        return Err(Refusal::NotANumber);
    }
    let mut n: u64 = 0;
    for b in bytes {
        let digit = b.is_ascii_digit();
        if !digit {
            return Err(Refusal::NotANumber);
        }
        n = n * 10 + (*b - b'0') as u64;
    }
    u32::try_from(n).map_err(|_| Refusal::NotANumber)
}

// A number, from where its field begins.
pub fn number_at(line: &[u8], from: usize) -> NumberAt
    ensures { (result.end ≡ from + before comma (drop from line.now))
        × (field_result result.number ≡ field_read a_number (field 0 (drop from line.now))) }
{
    let end = lists::next_byte(line, from, COMMA);
    let bytes = line.get(from..end).unwrap_or(&[]);
    NumberAt {
        number: number_of(bytes),
        end,
    }
}
