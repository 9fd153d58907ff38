// The grade of a line that admits: read, and what is meant by it.
ghost use Rattle.std.specs.Prelude.{◌≡◌, ◌+◌, min, drop};
ghost use Rattle.lists.specs.Before.{before};
ghost use Rattle.board.specs.Limits.{deepest};
ghost use Rattle.lines.specs.Bytes.{comma};
ghost use Rattle.lines.specs.Fields.{a_grade, grade_meant};
ghost use Rattle.lines.specs.Reading.{field};
ghost use Rattle.fields.specs.Numbers.{field_read};
ghost use Rattle.fields.specs.Grades.{grade_of, grade_result};

use crate::numbers::number_at;
use board::{Board, Refusal};

// A grade as a line has it.
#[derive(Clone, Copy)]
pub enum Grade {
    Number(u32),
    Blank,
}

// A field's grade, or row 14, and where the field ends.
#[derive(Clone, Copy)]
pub struct GradeAt {
    pub grade: Result<Grade, Refusal>,
    pub end: usize,
}

// A grade, from where its field begins: a number, or blank.
// Not `map`: 01 has each field's answer taken apart by let .. else.
pub fn grade_at(line: &[u8], from: usize) -> GradeAt
    ensures { (result.end ≡ from + before comma (drop from line.now))
        × (grade_result result.grade ≡ field_read a_grade (field 0 (drop from line.now))) }
{
    let read = number_at(line, from);
    let end = read.end;
    let bytes = end - from;
    if bytes == 0 {
        return GradeAt {
            grade: Ok(Grade::Blank),
            end,
        };
    }
    let Ok(n) = read.number else {
        return GradeAt {
            grade: Err(Refusal::NotANumber),
            end,
        };
    };
    GradeAt {
        grade: Ok(Grade::Number(n)),
        end,
    }
}

// The grade that is meant on a board of this depth. A depth above the greatest counts as the greatest.
pub fn grade_meant(depth: u8, grade: Grade) -> u32
    ensures { result ≡ grade_meant (min depth deepest) (grade_of grade) }
{
    match grade {
        Grade::Number(n) => n,
        Grade::Blank => Board::grade_count(depth) - 1,
    }
}
