// The delay in metres of an answer, and at a place and second; and as other languages ask for them.
ghost use Rattle.mapset.specs.Described.{full};
ghost use Rattle.mapset.specs.Areas.{six};
ghost use Rattle.ask.specs.Ask.{question};
ghost use Rattle.delay.specs.Delay.{Delays, told as told_delay};
ghost use Rattle.ask_delay.specs.AskDelay.{AskDelays, told as told_asked};
ghost use Rattle.c_answers.specs.AskExported.{asks};
ghost use Rattle.c_answers.specs.DelayExported.{TecuDelayCrosses, DelayCrosses};

use ask::{MilliTecu, Why};
use c_given::{END, LINES};
use delay::Delay;
use mapset::{Header, Texts};

// The delay of so many thousandths of a TECU at a carrier in hertz; or 25.
pub fn tecu_delay(x: MilliTecu, carrier: f64) -> Option<Delay>
    ensures outcome { Delays x carrier (told_delay result) }
{
    delay::delay_of(x, carrier)
}

// The delay at a place and second; or 23, 31, 24, 20, 21, 22 or 25, in this order.
pub fn ask_delay(
    header: Header,
    texts: Texts,
    descriptions: &[u8],
    tec: &[i32],
    rms: &[i32],
    height: &[i32],
    exponents: &[i32],
    epochs: &[u64],
    marks: &[u8],
    kind: u64,
    method: u64,
    layer: u64,
    lat: i32,
    lon: i32,
    second: u64,
    carrier: f64,
) -> Result<Option<Delay>, Why>
    ensures outcome { AskDelays (question header (full texts descriptions.now)
        (six tec.now rms.now height.now exponents.now epochs.now marks.now)
        kind method layer lat lon second) carrier (told_asked result) }
{
    ask_delay::ask_delay(
        header,
        texts,
        descriptions,
        tec,
        rms,
        height,
        exponents,
        epochs,
        marks,
        kind,
        method,
        layer,
        lat,
        lon,
        second,
        carrier,
    )
}

// The delay of an answer in thousandths of a TECU: 0, with carrier, TECU and metres; or 25.
#[unsafe(no_mangle)]
pub extern "C" fn ionex_tecu_delay(x: i32, carrier: f64, out: &mut [f64]) -> u64
    ensures outcome { TecuDelayCrosses x carrier out.old result out.new }
{
    if out.len() < 3 {
        return 103;
    }
    let answer = tecu_delay(MilliTecu(x), carrier);
    c_answers::put_delay(answer, out)
}

// The delay of a TEC or RMS value of a map set: 0, with carrier, TECU and metres; or 01's or 02's number.
#[unsafe(no_mangle)]
pub extern "C" fn ionex_delay(
    header: &[i64],
    texts: &[u8],
    tec: &[i32],
    rms: &[i32],
    height: &[i32],
    exponents: &[i32],
    epochs: &[u64],
    marks: &[u8],
    kind: u64,
    method: u64,
    layer: u64,
    lat: i32,
    lon: i32,
    second: u64,
    carrier: f64,
    out: &mut [f64],
) -> u64
    ensures outcome { DelayCrosses header.now texts.now (asks header.now texts.now
        (six tec.now rms.now height.now exponents.now epochs.now marks.now)
        kind method layer lat lon second) carrier out.old result out.new }
{
    let short = c_answers::too_short(header.len(), texts.len(), out.len(), 3);
    if 0 < short {
        return short;
    }
    let h = c_given::header_in(header);
    let x = c_given::texts_in(texts);
    let answer = ask_delay(
        h,
        x,
        &texts[LINES..END],
        tec,
        rms,
        height,
        exponents,
        epochs,
        marks,
        kind,
        method,
        layer,
        lat,
        lon,
        second,
        carrier,
    );
    c_answers::put_asked_delay(answer, out)
}
