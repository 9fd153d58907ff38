// What the fields of a line ask for, behind its letter: row 14, or a request.
#![tactic(auto)]

ghost use Rattle.std.specs.Prelude.{◌≡◌, eqb, length};
ghost use Rattle.std.proofs.Math.Option.{some};
ghost use Rattle.lines.specs.Bytes.{letter_A, fields as fields_of};
ghost use Rattle.lines.specs.Reading.{field};
ghost use Rattle.requests.specs.Answers.{request_of};
ghost use Rattle.requests.specs.Inner.Parts.{read_result, after_letter, admits, OneNumber};

use board::{Laxity, Refusal};
use fields::grades::{Grade, grade_at};
use fields::numbers::number_at;

// Where a first field of one byte ends. The next begins one further.
pub const LETTER_END: usize = 1;

// What a line asks for.
#[derive(Clone, Copy)]
pub enum Asked {
    // A depth.
    Open(u32),
    // Ticket, laxity (01's wait) and grade, which may be blank.
    Admit(u32, Laxity, Grade),
    Close,
    // What can still be promised.
    Promise,
    // A ticket to take off.
    Withdraw(u32),
}

// What the fields of a line ask for, or row 14; and whether the line has these fields, and no other. Not one `Result`, which is no plainer: row 13 comes
// before row 14, and is known only behind the last field.
#[derive(Clone, Copy)]
pub struct Read {
    pub asked: Result<Asked, Refusal>,
    pub whole: bool,
}

// The fields of a line that has none behind its letter, and asks for this.
fn read_alone(line: &[u8], asked: Asked) -> Read
    ensures { length (field 0 line.now) ≡ 1 → read_result result ≡ (eqb (length (fields_of line.now)) 1, (0, some (request_of asked))) }
{
    let whole = LETTER_END == line.len();
    Read {
        asked: Ok(asked),
        whole,
    }
}

// The field of a line that has one number behind its letter: row 14, or what the number asks for.
// Not `map`: 01 has each field's answer taken apart by let .. else.
fn read_number<F: FnOnce(u32) -> Asked>(line: &[u8], asks: F) -> Read
    requires { F.IsAlwaysCallable asks }
    ensures { length (field 0 line.now) ≡ 1 → OneNumber (F.post asks) line.now result }
{
    let read = number_at(line, LETTER_END + 1);
    let whole = read.end == line.len();
    let Ok(number) = read.number else {
        return Read {
            asked: Err(Refusal::NotANumber),
            whole,
        };
    };
    Read {
        asked: Ok(asks(number)),
        whole,
    }
}

// What a line that admits asks for, by its fields: row 14 from the first that is refused, or the values.
// Not `?`: 01 has each field's answer taken apart by let .. else.
fn admit(
    ticket: Result<u32, Refusal>,
    laxity: Result<u32, Refusal>,
    grade: Result<Grade, Refusal>,
) -> Result<Asked, Refusal>
    ensures { result ≡ admits ticket laxity grade }
{
    let Ok(ticket) = ticket else {
        return Err(Refusal::NotANumber);
    };
    let Ok(laxity) = laxity else {
        return Err(Refusal::NotANumber);
    };
    let Ok(grade) = grade else {
        return Err(Refusal::NotANumber);
    };
    Ok(Asked::Admit(ticket, Laxity(laxity), grade))
}

// The fields of a line that admits: row 14, or the values.
fn read_admit(line: &[u8]) -> Read
    ensures { length (field 0 line.now) ≡ 1 → read_result result ≡ after_letter letter_A line.now }
{
    let first = number_at(line, LETTER_END + 1);
    let second = number_at(line, first.end + 1);
    let third = grade_at(line, second.end + 1);
    let whole = third.end == line.len();
    Read {
        asked: admit(first.number, second.number, third.grade),
        whole,
    }
}

// The fields of a line that starts with this letter: row 14, or what it asks for.
// The letter is no enum: what may not change, `read_fields` answers for every byte.
pub fn read_fields(line: &[u8], letter: u8) -> Read
    ensures { length (field 0 line.now) ≡ 1 → read_result result ≡ after_letter letter line.now }
{
    match letter {
        b'D' => read_number(line, Asked::Open),
        b'A' => read_admit(line),
        b'W' => read_number(line, Asked::Withdraw),
        b'Q' => read_alone(line, Asked::Promise),
        _ => read_alone(line, Asked::Close),
    }
}
