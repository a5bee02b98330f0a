// A text into six lent areas: judged first, and stored only where nothing is wrong and each area is long enough.
#![tactic(auto)]

ghost use Rattle.std.specs.Prelude.{◌≡◌};
ghost use Rattle.mapset.specs.Areas.{six};
ghost use Rattle.mapset.specs.Described.{full};
ghost use Rattle.read_judge.specs.Scanned.{Accepts};
ghost use Rattle.read_outcome.specs.Outcome.{outcome, comes};

use mapset::Descriptions;
use read_judge::FirstScan;
use read_needs::Elements;
use read_outcome::{ReadOut, Reason};

// A text that is accepted, into the areas, if each is long enough.
fn store(
    text: &[u8],
    scan: FirstScan,
    lines: &[u8; 1200],
    tec: &mut [i32],
    rms: &mut [i32],
    height: &mut [i32],
    exponents: &mut [i32],
    epochs: &mut [u64],
    marks: &mut [u8],
) -> ReadOut
    requires { Accepts text.now (full scan.texts lines.now) scan.header scan.exponent scan.at scan.some }
    ensures { comes result
        (six tec.new rms.new height.new exponents.new epochs.new marks.new)
        ≡ outcome text.now
        (six tec.old rms.old height.old exponents.old epochs.old marks.old) }
{
    let size = read_needs::size_of(scan.header);
    let need = read_needs::needed(size, scan.some);
    let lent = Elements {
        tec: tec.len(),
        rms: rms.len(),
        height: height.len(),
        exponents: exponents.len(),
        epochs: epochs.len(),
        marks: marks.len(),
    };
    match read_needs::room_for(need, lent) {
        Err(short) => read_outcome::refused(Reason::AreaTooShort(short.area, short.need)),
        Ok(()) => {
            read_fill::fill_maps(
                text,
                scan.at,
                scan.exponent,
                size,
                need.rms,
                need.height,
                tec,
                rms,
                height,
                exponents,
                epochs,
                marks,
            );
            ReadOut {
                answer: Ok(scan.header),
                texts: scan.texts,
                descriptions: Descriptions { bytes: *lines },
            }
        }
    }
}

// A text into six lent areas: the map set's header record and texts, or the reason why not. (Where a text is refused, texts stand beside
// the reason, so the two refusals end here and not by `?`: a Result of all that is read is a copy more on the stack.)
pub fn read_text(
    text: &[u8],
    tec: &mut [i32],
    rms: &mut [i32],
    height: &mut [i32],
    exponents: &mut [i32],
    epochs: &mut [u64],
    marks: &mut [u8],
) -> ReadOut
    ensures { comes result
        (six tec.new rms.new height.new exponents.new epochs.new marks.new)
        ≡ outcome text.now
        (six tec.old rms.old height.old exponents.old epochs.old marks.old) }
{
    let mut lines = [b' '; 1200];
    match read_judge::judge(text, &mut lines) {
        Err(why) => read_outcome::refused(Reason::from(why)),
        Ok(scan) => store(
            text, scan, &lines, tec, rms, height, exponents, epochs, marks,
        ),
    }
}
