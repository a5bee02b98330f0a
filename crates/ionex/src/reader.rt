// A text read, and what it needs; and as other languages have it read.
ghost use Rattle.std.specs.Prelude.{◌≡◌};
ghost use Rattle.mapset.specs.Areas.{six};
ghost use Rattle.read_outcome.specs.Outcome.{outcome, comes};
ghost use Rattle.read_outcome.specs.Measures.{Measures};
ghost use Rattle.c_answers.specs.ReadExported.{crossed, read_crossed};
ghost use Rattle.c_answers.specs.NeedsExported.{NeedsCross};

use read_needs::Elements;
use read_outcome::{ReadOut, Reason};

// A text into six lent areas: the map set's header record and texts, or the reason why not.
pub fn read(
    text: &[u8],
    tec: &mut [i32],
    rms: &mut [i32],
    height: &mut [i32],
    exponents: &mut [i32],
    epochs: &mut [u64],
    marks: &mut [u8],
) -> ReadOut
    ensures outcome { comes result
        (six tec.new rms.new height.new exponents.new epochs.new marks.new)
        ≡ outcome text.now
        (six tec.old rms.old height.old exponents.old epochs.old marks.old) }
{
    read_text::read_text(text, tec, rms, height, exponents, epochs, marks)
}

// A text into six areas: 0, with the header record and its texts; or 01's number, with its place.
#[unsafe(no_mangle)]
pub extern "C" fn ionex_read(
    text: &[u8],
    tec: &mut [i32],
    rms: &mut [i32],
    height: &mut [i32],
    exponents: &mut [i32],
    epochs: &mut [u64],
    marks: &mut [u8],
    header: &mut [i64],
    texts: &mut [u8],
    place: &mut [u64],
) -> u64
    ensures outcome { crossed result
        (six tec.new rms.new height.new exponents.new epochs.new marks.new)
        header.new texts.new place.new
        ≡ read_crossed text.now
        (six tec.old rms.old height.old exponents.old epochs.old marks.old)
        header.old texts.old place.old }
{
    let short = c_answers::too_short(header.len(), texts.len(), place.len(), 2);
    if 0 < short {
        return short;
    }
    let r = read(text, tec, rms, height, exponents, epochs, marks);
    c_answers::put_reading(r, header, texts, place)
}

// What each of the six areas needs for a text, or the reason why it is refused.
pub fn needs(text: &[u8]) -> Result<Elements, Reason>
    ensures outcome { Measures text.now result }
{
    read_measure::measure(text)
}

// What a text needs: 0, with the six needs; or 01's number, with its place.
#[unsafe(no_mangle)]
pub extern "C" fn ionex_needs(text: &[u8], needs: &mut [u64], place: &mut [u64]) -> u64
    ensures outcome { NeedsCross text.now needs.old place.old result needs.new place.new }
{
    if needs.len() < 6 {
        return 103;
    }
    if place.len() < 2 {
        return 103;
    }
    let measured = read_measure::measure(text);
    c_answers::put_needs(measured, needs, place)
}
