// Canonical text of the lent areas, put into a lent output.
#![tactic(auto)]

ghost use Rattle.std.specs.Prelude.{◌≡◌, List, ℕ};
ghost use Rattle.mapset.specs.Described.{full};
ghost use Rattle.mapset.specs.Areas.{six};
ghost use Rattle.write_line.specs.Put.{Put};
ghost use Rattle.write_text.specs.Write.{ToldWriting, told, written};
ghost use Rattle.write_text.specs.Ready.{canon_rows_of, Writable};

use mapset::{Header, Texts};

// The canonical text.
fn put_text(
    out: &mut [u8],
    at: usize,
    header: Header,
    texts: Texts,
    descriptions: &[u8],
    tec: &[i32],
    rms: &[i32],
    height: &[i32],
    exponents: &[i32],
    epochs: &[u64],
    marks: &[u8],
) -> usize
    requires { Writable header (full texts descriptions.now) (six tec.now rms.now height.now exponents.now epochs.now marks.now) at }
    ensures { Put out.old at (canon_rows_of header (full texts descriptions.now)
        (six tec.now rms.now height.now exponents.now epochs.now marks.now))
        out.new result }
{
    let next = write_head::put_header(out, at, header, texts, descriptions);
    write_maps::put_maps(
        out, next, header, tec, rms, height, exponents, epochs, marks,
    )
}

// Why nothing is written: the output is shorter than the bytes needed (30), or this is no map set (31).
#[derive(Clone, Copy)]
pub enum Unwritten {
    Short(u64),
    Unsound,
}

// The bytes written. The text is measured in none of the output, so that 30 leaves it as it was.
pub fn write_text(
    header: Header,
    texts: Texts,
    descriptions: &[u8],
    tec: &[i32],
    rms: &[i32],
    height: &[i32],
    exponents: &[i32],
    epochs: &[u64],
    marks: &[u8],
    out: &mut [u8],
) -> Result<u64, Unwritten>
    ensures { ◌≡◌ {A = ToldWriting × List ℕ} (told result, out.new) (written header (full texts descriptions.now)
        (six tec.now rms.now height.now exponents.now epochs.now marks.now)
        out.old) }
{
    if !valid::valid(
        header,
        texts,
        descriptions,
        tec,
        rms,
        height,
        exponents,
        epochs,
        marks,
    ) {
        return Err(Unwritten::Unsound);
    }
    let nothing: usize = 0;
    let needed = put_text(
        &mut out[..nothing],
        0,
        header,
        texts,
        descriptions,
        tec,
        rms,
        height,
        exponents,
        epochs,
        marks,
    );
    if out.len() < needed {
        return Err(Unwritten::Short(needed as u64));
    }
    let end = put_text(
        out,
        0,
        header,
        texts,
        descriptions,
        tec,
        rms,
        height,
        exponents,
        epochs,
        marks,
    );
    Ok(end as u64)
}
