// An epoch moved by seconds, as other languages ask for it.
ghost use Rattle.calendar.specs.Calendar.{told_when, The};
ghost use Rattle.c_answers.specs.MoveExported.{Moves, MoveCrosses};

use calendar::Epoch;

// A second for a second: the date of the one, moved, is the date of the other.
fn moved_second(second: u64, by: i64) -> Option<u64>
    ensures outcome { The (Moves second by) (told_when result) }
{
    let from = Epoch::at_second(second)?;
    let to = from.moved(by)?;
    to.seconds()
}

// An epoch moved by so many seconds: 0, with the epoch; or 7 where it or the result lies outside 1900 to 2199.
#[unsafe(no_mangle)]
pub extern "C" fn ionex_moved(second: u64, by: i64, moved: &mut [u64]) -> u64
    ensures outcome { MoveCrosses second by moved.old result moved.new }
{
    if moved.len() < 1 {
        return 103;
    }
    let when = moved_second(second, by);
    c_answers::put_moved(when, moved)
}
