// The index of a text, in lent areas: judged first, and stored only where nothing is wrong and each area is long enough.
#![tactic(auto)]

ghost use Rattle.std.specs.Prelude.{◌≡◌, ◌*◌, ◌≤◌};
ghost use Rattle.mapset.specs.Described.{full};
ghost use Rattle.index.specs.Index.{entries};
ghost use Rattle.read_needs.specs.Needs.{first_short, fit};
ghost use Rattle.index_text.specs.Making.{pairs, ReadAs, made, comes};

use mapset::{Descriptions, Size};
use read_judge::FirstScan;
use read_needs::Short;
use read_outcome::{ReadOut, Reason};

// Each area holds what it needs; or the first that does not: positions, exponents, marks.
fn room_for(size: Size, positions: usize, exponents: usize, marks: usize) -> Result<(), Short>
    requires { size.maps * size.blocks ≤ 2000000 }
    ensures { fit result ≡ first_short 1 (pairs size.maps size.blocks positions exponents marks) }
{
    let all = 3 * (size.maps * size.blocks);
    read_needs::fits(1, all, positions)?;
    read_needs::fits(2, all, exponents)?;
    read_needs::fits(3, size.maps, marks)
}

// The index of a text that is accepted, if each area is long enough.
fn store(
    text: &[u8],
    scan: FirstScan,
    lines: &[u8; 1200],
    positions: &mut [u64],
    exponents: &mut [i32],
    marks: &mut [u8],
) -> ReadOut
    requires { ReadAs text.now scan.header (full scan.texts lines.now) }
    ensures { comes result (entries positions.new exponents.new marks.new)
        ≡ made text.now (entries positions.old exponents.old marks.old) }
{
    let size = read_needs::size_of(scan.header);
    match room_for(size, positions.len(), exponents.len(), marks.len()) {
        Err(short) => read_outcome::refused(Reason::AreaTooShort(short.area, short.need)),
        Ok(()) => {
            index_fill::enter_all(text, size, positions, exponents, marks);
            ReadOut {
                answer: Ok(scan.header),
                texts: scan.texts,
                descriptions: Descriptions { bytes: *lines },
            }
        }
    }
}

// A text's index into three lent areas, with its header record and texts; or the reason why not, which is the reader's but for the areas.
// (As in read_text, texts stand beside a refusal, so none ends by `?`.)
pub fn make_index(
    text: &[u8],
    positions: &mut [u64],
    exponents: &mut [i32],
    marks: &mut [u8],
) -> ReadOut
    ensures { comes result (entries positions.new exponents.new marks.new)
        ≡ made text.now (entries positions.old exponents.old marks.old) }
{
    let mut lines = [b' '; 1200];
    match read_judge::judge(text, &mut lines) {
        Err(why) => read_outcome::refused(Reason::from(why)),
        Ok(scan) => store(text, scan, &lines, positions, exponents, marks),
    }
}
