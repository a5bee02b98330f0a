// The delay at a place and second: the question asked, and its TECU turned into metres (02, request 13).
#![tactic(auto)]

ghost use Rattle.mapset.specs.Described.{full};
ghost use Rattle.mapset.specs.Areas.{six};
ghost use Rattle.ask.specs.Ask.{question, told as told_asked};
ghost use Rattle.ask_delay.specs.AskDelay.{AskDelays, Turned, told};

use ask::{Value, Why};
use delay::Delay;
use mapset::{Header, Texts};

// The delay of an answer, none at a carrier that is refused; or why there is no answer.
fn turned(asked: Result<Value, Why>, carrier: f64) -> Result<Option<Delay>, Why>
    ensures { Turned carrier (told_asked asked) (told result) }
{
    match asked? {
        Value::Tecu(x) => Ok(delay::delay_of(x, carrier)),
        Value::Km(_) => Err(Why::Unknown),
    }
}

// The delay of a TEC or RMS value at a place and second: kind 2 is unknown here, and the carrier is looked at last.
pub fn ask_delay(
    header: Header,
    texts: Texts,
    descriptions: &[u8],
    tec: &[i32],
    rms: &[i32],
    height: &[i32],
    exponents: &[i32],
    epochs: &[u64],
    marks: &[u8],
    kind: u64,
    method: u64,
    layer: u64,
    lat: i32,
    lon: i32,
    second: u64,
    carrier: f64,
) -> Result<Option<Delay>, Why>
    ensures { AskDelays (question header (full texts descriptions.now)
        (six tec.now rms.now height.now exponents.now epochs.now marks.now)
        kind method layer lat lon second) carrier (told result) }
{
    if kind == 2 {
        return Err(Why::Unknown);
    }
    let asked = ask::ask(
        header,
        texts,
        descriptions,
        tec,
        rms,
        height,
        exponents,
        epochs,
        marks,
        kind,
        method,
        layer,
        lat,
        lon,
        second,
    );
    turned(asked, carrier)
}
