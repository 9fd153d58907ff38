// The fields of a line: bytes parted by commas. A reader takes the place where a field begins, and answers where it ends too: the next comma or the
// line's end. Past the line's end a field is blank, and ends where it begins.
#![tactic(auto)]

pub mod grades;
pub mod numbers;

pub const COMMA: u8 = b',';
