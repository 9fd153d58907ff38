// Bytes put into a buffer that the caller lends.
#![tactic(auto)]

ghost use Rattle.std.specs.Prelude.{◌≡◌, ◌+◌, leb, length};
ghost use Rattle.buffer.specs.Puts.{PutIf};

// Whether so many bytes end at `end` or before where they start at `at`.
pub fn room_for(most: usize, at: usize, end: usize) -> bool
    ensures { result ≡ leb (at + most) end }
{
    at <= end && most <= end - at
}

// Puts the bytes at `at`; where they end. Where there is no room for them nothing is put, and that is `at`.
// The C interface: here and in all that prints, a slice and a place in it and no `Vec`, since C lends the slice (`oven_page_print`). What may not change: the
// place is any number, since `print_answer`, `print_page` and `print_by` promise an answer for every slice and every place.
pub fn put_bytes(out: &mut [u8], at: usize, bytes: &[u8]) -> usize
    ensures { let bs = bytes.now in
        let fits = leb (at + length bs) (length out.old) in
        PutIf fits (length bs) bs out.old at result out.new }
{
    let len = bytes.len();
    if !room_for(len, at, out.len()) {
        return at;
    }
    out[at..at + len].copy_from_slice(bytes);
    at + len
}
