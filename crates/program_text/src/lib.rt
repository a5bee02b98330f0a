// What the program prints of a text: its canonical text, or one line that says why not.
#![tactic(auto)]

ghost use Rattle.std.specs.Prelude.{◌≡◌, ◌≤◌, length, take};
ghost use Rattle.mapset.specs.Described.{full};
ghost use Rattle.mapset.specs.Areas.{six};
ghost use Rattle.read_outcome.specs.Outcome.{texts_in};
ghost use Rattle.write_text.specs.Write.{told};
ghost use Rattle.program_line.specs.Lines.{Begins};
ghost use Rattle.program_text.specs.Printed.{Stands, shown, canonical, answered, Had, printed};

use mapset::{Header, Texts};
use read_outcome::ReadOut;
use write_text::Unwritten;

const MOST: usize = 32768;

// What was written, or one line that says why not. After a reading it is a map set, and its text fits.
fn put_written(written: Result<u64, Unwritten>, out: &mut [u8]) -> usize
    requires { (128 ≤ length out.old) × Stands (told written) (length out.old) }
    ensures { Begins out.new result (shown (told written) out.old) }
{
    match written {
        Ok(n) => n as usize,
        Err(Unwritten::Short(n)) => program_line::put_need(out, n),
        Err(Unwritten::Unsound) => program_line::put(out, 0, b"refused 31\n"),
    }
}

// What is in the areas as canonical text.
fn put_canonical(
    header: Header,
    texts: Texts,
    descriptions: &[u8],
    tec: &[i32],
    rms: &[i32],
    height: &[i32],
    exponents: &[i32],
    epochs: &[u64],
    marks: &[u8],
    out: &mut [u8],
) -> usize
    requires { 128 ≤ length out.old }
    ensures { Begins out.new result (canonical (length out.old) header (full texts descriptions.now)
        (six tec.now rms.now height.now exponents.now epochs.now marks.now)) }
{
    let written = write_text::write_text(
        header,
        texts,
        descriptions,
        tec,
        rms,
        height,
        exponents,
        epochs,
        marks,
        out,
    );
    put_written(written, out)
}

// What is to be printed after reading.
fn put_answer(
    read: ReadOut,
    tec: &[i32],
    rms: &[i32],
    height: &[i32],
    exponents: &[i32],
    epochs: &[u64],
    marks: &[u8],
    out: &mut [u8],
) -> usize
    requires { 128 ≤ length out.old }
    ensures { Begins out.new result (answered (length out.old) read.answer (texts_in read)
        (six tec.now rms.now height.now exponents.now epochs.now marks.now)) }
{
    match read.answer {
        Ok(header) => put_canonical(
            header,
            read.texts,
            &read.descriptions.bytes,
            tec,
            rms,
            height,
            exponents,
            epochs,
            marks,
            out,
        ),
        Err(reason) => program_line::put_reason(out, reason),
    }
}

// What is to be printed of a text, the first n bytes of a buffer that has one byte more than a text may have: so many bytes of out.
pub fn answer(
    buffer: &[u8],
    n: usize,
    tec: &mut [i32],
    rms: &mut [i32],
    height: &mut [i32],
    exponents: &mut [i32],
    epochs: &mut [u64],
    marks: &mut [u8],
    out: &mut [u8],
) -> usize
    requires { Had (six tec.old rms.old height.old exponents.old epochs.old marks.old) × ((length out.old ≡ 65536) × ((length buffer.now ≡ 32769) × (n ≤ 32769))) }
    ensures { Begins out.new result (printed (take n buffer.now)) }
{
    if MOST < n {
        return program_line::put(out, 0, b"text too big\n");
    }
    let read = read_text::read_text(&buffer[..n], tec, rms, height, exponents, epochs, marks);
    put_answer(read, tec, rms, height, exponents, epochs, marks, out)
}
