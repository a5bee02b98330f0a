// A map set as canonical text, and as other languages have it written.
ghost use Rattle.std.specs.Prelude.{◌≡◌, List, ℕ};
ghost use Rattle.mapset.specs.Described.{full};
ghost use Rattle.mapset.specs.Areas.{six};
ghost use Rattle.write_text.specs.Write.{ToldWriting, told, written};
ghost use Rattle.c_answers.specs.WriteExported.{crossed, write_crossed};

use c_given::{END, LINES};
use mapset::{Header, Texts};
use write_text::Unwritten;

// The number of bytes, with the text in front of the output; or 31; or 30 with the bytes needed, found before a byte is written.
pub fn write(
    header: Header,
    texts: Texts,
    descriptions: &[u8],
    tec: &[i32],
    rms: &[i32],
    height: &[i32],
    exponents: &[i32],
    epochs: &[u64],
    marks: &[u8],
    out: &mut [u8],
) -> Result<u64, Unwritten>
    ensures outcome { ◌≡◌ {A = ToldWriting × List ℕ} (told result, out.new) (written header (full texts descriptions.now)
        (six tec.now rms.now height.now exponents.now epochs.now marks.now)
        out.old) }
{
    write_text::write_text(
        header,
        texts,
        descriptions,
        tec,
        rms,
        height,
        exponents,
        epochs,
        marks,
        out,
    )
}

// A map set as canonical text: 0, with the bytes written; 30, with the bytes needed; or 31.
#[unsafe(no_mangle)]
pub extern "C" fn ionex_write(
    header: &[i64],
    texts: &[u8],
    tec: &[i32],
    rms: &[i32],
    height: &[i32],
    exponents: &[i32],
    epochs: &[u64],
    marks: &[u8],
    out: &mut [u8],
    count: &mut [u64],
) -> u64
    ensures outcome { crossed result out.new count.new ≡ write_crossed header.now texts.now
        (six tec.now rms.now height.now exponents.now epochs.now marks.now)
        out.old count.old }
{
    let short = c_answers::too_short(header.len(), texts.len(), count.len(), 1);
    if 0 < short {
        return short;
    }
    let h = c_given::header_in(header);
    let x = c_given::texts_in(texts);
    let answer = write(
        h,
        x,
        &texts[LINES..END],
        tec,
        rms,
        height,
        exponents,
        epochs,
        marks,
        out,
    );
    c_answers::put_written(answer, count)
}
