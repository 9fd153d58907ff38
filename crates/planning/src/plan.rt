// What is printed of a list: the slot of each rack and the sum, or the refusal.
ghost use Rattle.std.specs.Prelude.{◌≡◌, not, [], ◌∷◌, ◌+◌, ◌*◌, ◌≤◌, ◌==◌, leb, length};
ghost use Rattle.std.specs.List.{count_by};
ghost use Rattle.lines.specs.Bytes.{letter_R};
ghost use Rattle.lines.specs.Printing.{printed};
ghost use Rattle.printing.specs.Lines.{room};
ghost use Rattle.buffer.specs.Puts.{PutWithin, PutIf};
ghost use Rattle.matching.specs.Windows.{most_jobs};
ghost use Rattle.worklist.specs.Output.{printed_slots, printed_plan, list_output};
ghost use Rattle.planning.specs.Room.{plan_room};

use matching::Jobs;
use worklist::Refused;

// Bytes that are enough for what is printed: a line for each job, and the sum.
pub const PLAN_ROOM: usize = (Jobs::MOST + 1) * printing::LINE_ROOM;

// How many jobs have a slot, by the slots of all of them.
fn baked_count(slots: &[u32]) -> usize
    ensures { result ≡ count_by (λ s. not (s == 0)) slots.now }
{
    slots.iter().filter(|slot| **slot != 0).count()
}

// Prints a line for each job, with its slot; where the last one ends.
fn print_slots(slots: &[u32], out: &mut [u8]) -> usize
    requires { (length slots.now ≤ most_jobs) × (most_jobs * room ≤ length out.old) }
    ensures { PutWithin (most_jobs * room) (printed_slots 1 slots.now) out.old 0 result out.new }
{
    let mut end: usize = 0;
    for (i, slot) in slots.iter().enumerate() {
        end = printing::print_at(out, end, b'H', &[i as u64 + 1, *slot as u64]);
    }
    end
}

// Prints the slots and the sum; where it ends.
fn print_plan(slots: &[u32], out: &mut [u8]) -> usize
    requires { (length slots.now ≤ most_jobs) × (plan_room ≤ length out.old) }
    ensures { PutWithin plan_room (printed_plan (length slots.now) slots.now) out.old 0 result out.new }
{
    let baked = baked_count(slots);
    let end = print_slots(slots, out);
    printing::print_at(out, end, b'S', &[slots.len() as u64, baked as u64])
}

// Prints a refusal; where it ends.
fn print_refused(refused: Refused, out: &mut [u8]) -> usize
    requires { plan_room ≤ length out.old }
    ensures { let line = printed letter_R (refused.line ∷ refused.number ∷ []) in
        PutWithin plan_room line out.old 0 result out.new }
{
    printing::print_at(out, 0, b'R', &[refused.line, refused.number as u64])
}

// Prints what a list's lines give, at the start of the buffer; where it ends. Where there is no room for the longest print nothing is printed.
pub fn print_list(input: &[u8], out: &mut [u8]) -> usize
    ensures { let fits = leb (0 + plan_room) (length out.old) in
        PutIf fits plan_room (list_output input.now) out.old 0 result out.new }
{
    if !buffer::room_for(PLAN_ROOM, 0, out.len()) {
        return 0;
    }
    let collected = worklist::collect(input);
    let day = hindsight::find_best_day(collected.jobs);
    let found = worklist::refusal(collected, day.refusal);
    match found {
        Some(refused) => print_refused(refused, out),
        None => print_plan(&day.slots[..collected.jobs.count], out),
    }
}
