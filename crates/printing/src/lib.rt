// One line of the program's output, put into a buffer that the caller lends: a letter, numbers each behind a comma, and a line end.
#![tactic(auto, unfolding(crate::specs::Lines::line_digits, crate::specs::Lines::room))]

ghost use Rattle.std.specs.Prelude.{[], ◌∷◌, ◌≡◌, ◌+◌, ◌/◌, ◌%◌, ◌≤◌, ◌<◌, leb, length, take};
ghost use Rattle.lines.specs.Printing.{decimal, printed};
ghost use Rattle.buffer.specs.Puts.{put, PutWithin, PutIf};
ghost use Rattle.printing.specs.Lines.{line_numbers, line_digits, room};

// Numbers of a line, at the most.
pub const LINE_NUMBERS: usize = 5;

// Digits of a number, at the most.
pub const LINE_DIGITS: usize = 20;

// Room for a letter, the numbers each behind a comma, and a line end.
pub const LINE_ROOM: usize = 1 + LINE_NUMBERS * (1 + LINE_DIGITS) + 1;

// Prints at `at` the line with this letter and these numbers, each behind a comma, in decimal without leading zeros, and a line end; where it ends.
// Of more numbers than a line has, the first ones. Where there is no room for the longest line nothing is printed, and that is `at`.
pub fn print_at(out: &mut [u8], at: usize, letter: u8, numbers: &[u64]) -> usize
    ensures { let fits = leb (at + room) (length out.old) in
        let line = printed letter (take line_numbers numbers.now) in
        PutIf fits room line out.old at result out.new }
{
    if !buffer::room_for(LINE_ROOM, at, out.len()) {
        return at;
    }
    let count = numbers.len().min(LINE_NUMBERS);
    out[at] = letter;
    let mut end = at + 1;
    for n in &numbers[..count] {
        out[end] = b',';
        end = put_number(out, end + 1, *n);
    }
    out[end] = b'\n';
    end + 1
}

// Puts the digits of n at `at`, the last ones first and two at a time; where they end. What may not change: the clause of `print_at` says each byte, of which the
// library's `Display` ensures none; and `last_digit_repeated` and `leading_zero` (must-fail) are edits of these digits, which the crate `itoa` would write.
#[tactic(auto, using(crate::proofs::Decimals::length_two_more), unfolding(crate::specs::Lines::line_digits))]
fn put_number(out: &mut [u8], at: usize, n: u64) -> usize
    requires { at + line_digits ≤ length out.old }
    ensures { PutWithin line_digits (decimal n) out.old at result out.new }
{
    let end = at + digit_count(n);
    let mut next = end;
    let mut rest = n;
    while 100 <= rest {
        next -= 2;
        put_pair(out, next, rest % 100);
        rest /= 100;
    }
    if rest < 10 {
        out[at] = b'0' + rest as u8;
        return end;
    }
    put_pair(out, at, rest);
    end
}

// Puts two digits at `at`, those of n.
#[tactic(auto, using(buffer::proofs::Puts::put_two))]
fn put_pair(out: &mut [u8], at: usize, n: u64)
    requires { (n < 100) × (at + 1 < length out.old) }
    ensures { out.new ≡ put out.old at ((48 + n / 10) ∷ (48 + n % 10) ∷ []) }
{
    out[at + 1] = b'0' + (n % 10) as u8;
    out[at] = b'0' + (n / 10) as u8;
}

// How many digits n has.
// Tried and slower: by `checked_ilog10` the board's program took 4 % more time on a day of 300,000 lines.
fn digit_count(n: u64) -> usize
    ensures { (result ≡ length (decimal n)) × (result ≤ line_digits) }
{
    let mut left = n;
    let mut count: usize = 1;
    while 10000 <= left {
        left /= 10000;
        count += 4;
    }
    if left < 10 {
        return count;
    }
    if left < 100 {
        return count + 1;
    }
    if left < 1000 {
        return count + 2;
    }
    count + 3
}
