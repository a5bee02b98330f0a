// The value at a place and second, of one question or of many, and as other languages ask for it.
ghost use Rattle.mapset.specs.Described.{full};
ghost use Rattle.mapset.specs.Areas.{six};
ghost use Rattle.ask.specs.Ask.{question, Answers, told};
ghost use Rattle.ask_all.specs.AskAll.{places, slots, AsksAll, told as told_all};
ghost use Rattle.c_answers.specs.AskExported.{asks, AskCrosses};
ghost use Rattle.c_answers.specs.AskAllExported.{AskAllCrosses};

use ask::{Value, Why};
use c_given::{END, LINES};
use mapset::{Header, Texts};

// The value at a place and second, in the kind's unit; or 23, 31, 24, 20, 21 or 22, in this order.
pub fn ask(
    header: Header,
    texts: Texts,
    descriptions: &[u8],
    tec: &[i32],
    rms: &[i32],
    height: &[i32],
    exponents: &[i32],
    epochs: &[u64],
    marks: &[u8],
    kind: u64,
    method: u64,
    layer: u64,
    lat: i32,
    lon: i32,
    second: u64,
) -> Result<Value, Why>
    ensures outcome { Answers (question header (full texts descriptions.now)
        (six tec.now rms.now height.now exponents.now epochs.now marks.now)
        kind method layer lat lon second) (told result) }
{
    ask::ask(
        header,
        texts,
        descriptions,
        tec,
        rms,
        height,
        exponents,
        epochs,
        marks,
        kind,
        method,
        layer,
        lat,
        lon,
        second,
    )
}

// A question about a map set: 0, with the value; or 01's number.
#[unsafe(no_mangle)]
pub extern "C" fn ionex_ask(
    header: &[i64],
    texts: &[u8],
    tec: &[i32],
    rms: &[i32],
    height: &[i32],
    exponents: &[i32],
    epochs: &[u64],
    marks: &[u8],
    kind: u64,
    method: u64,
    layer: u64,
    lat: i32,
    lon: i32,
    second: u64,
    value: &mut [i32],
) -> u64
    ensures outcome { AskCrosses header.now texts.now (asks header.now texts.now
        (six tec.now rms.now height.now exponents.now epochs.now marks.now)
        kind method layer lat lon second) value.old result value.new }
{
    let short = c_answers::too_short(header.len(), texts.len(), value.len(), 1);
    if 0 < short {
        return short;
    }
    let h = c_given::header_in(header);
    let x = c_given::texts_in(texts);
    let answer = ask(
        h,
        x,
        &texts[LINES..END],
        tec,
        rms,
        height,
        exponents,
        epochs,
        marks,
        kind,
        method,
        layer,
        lat,
        lon,
        second,
    );
    c_answers::put_answer(answer, value)
}

// Many questions about a map set: the answer number of each and its value, where it has one; or 23, 31 or 24, with nothing written.
pub fn ask_all(
    header: Header,
    texts: Texts,
    descriptions: &[u8],
    tec: &[i32],
    rms: &[i32],
    height: &[i32],
    exponents: &[i32],
    epochs: &[u64],
    marks: &[u8],
    kind: u64,
    method: u64,
    layer: u64,
    lats: &[i32],
    lons: &[i32],
    seconds: &[u64],
    answers: &mut [u8],
    values: &mut [i32],
) -> Result<(), Why>
    ensures outcome { AsksAll (question header (full texts descriptions.now)
        (six tec.now rms.now height.now exponents.now epochs.now marks.now)
        kind method layer) (places lats.now lons.now seconds.now)
        (slots answers.old values.old) (told_all result) (slots answers.new values.new) }
{
    ask_all::ask_all(
        header,
        texts,
        descriptions,
        tec,
        rms,
        height,
        exponents,
        epochs,
        marks,
        kind,
        method,
        layer,
        lats,
        lons,
        seconds,
        answers,
        values,
    )
}

// Many questions about a map set: 0, with an answer number and a value for each; or 01's number, with nothing written.
#[unsafe(no_mangle)]
pub extern "C" fn ionex_ask_all(
    header: &[i64],
    texts: &[u8],
    tec: &[i32],
    rms: &[i32],
    height: &[i32],
    exponents: &[i32],
    epochs: &[u64],
    marks: &[u8],
    kind: u64,
    method: u64,
    layer: u64,
    lats: &[i32],
    lons: &[i32],
    seconds: &[u64],
    answers: &mut [u8],
    values: &mut [i32],
) -> u64
    ensures outcome { AskAllCrosses header.now texts.now (asks header.now texts.now
        (six tec.now rms.now height.now exponents.now epochs.now marks.now)
        kind method layer) (places lats.now lons.now seconds.now)
        (slots answers.old values.old) result (slots answers.new values.new) }
{
    let short = c_answers::too_short(header.len(), texts.len(), 0, 0);
    if 0 < short {
        return short;
    }
    let h = c_given::header_in(header);
    let x = c_given::texts_in(texts);
    let answer = ask_all(
        h,
        x,
        &texts[LINES..END],
        tec,
        rms,
        height,
        exponents,
        epochs,
        marks,
        kind,
        method,
        layer,
        lats,
        lons,
        seconds,
        answers,
        values,
    );
    c_answers::all_number(answer)
}
