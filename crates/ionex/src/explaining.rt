// Where an answer came from, and as other languages ask for it.
ghost use Rattle.mapset.specs.Described.{full};
ghost use Rattle.mapset.specs.Areas.{six};
ghost use Rattle.ask.specs.Ask.{question};
ghost use Rattle.ask_why.specs.Explain.{Explains};
ghost use Rattle.c_answers.specs.AskExported.{asks};
ghost use Rattle.c_why.specs.ExplainExported.{ExplainCrosses};

use ask_why::Explanation;
use c_given::{END, LINES};
use mapset::{Header, Texts};

// The answer of `ask`, and beside it the needed nodes, their number and the common denominator; 22 with its node.
pub fn explain(
    header: Header,
    texts: Texts,
    descriptions: &[u8],
    tec: &[i32],
    rms: &[i32],
    height: &[i32],
    exponents: &[i32],
    epochs: &[u64],
    marks: &[u8],
    kind: u64,
    method: u64,
    layer: u64,
    lat: i32,
    lon: i32,
    second: u64,
) -> Explanation
    ensures outcome { Explains (question header (full texts descriptions.now)
        (six tec.now rms.now height.now exponents.now epochs.now marks.now)
        kind method layer lat lon second) result }
{
    ask_why::explain(
        header,
        texts,
        descriptions,
        tec,
        rms,
        height,
        exponents,
        epochs,
        marks,
        kind,
        method,
        layer,
        lat,
        lon,
        second,
    )
}

// A question explained: 0, with the 51 numbers of the nodes; 22, with the 5 of the node without a value; or 01's number.
#[unsafe(no_mangle)]
pub extern "C" fn ionex_explain(
    header: &[i64],
    texts: &[u8],
    tec: &[i32],
    rms: &[i32],
    height: &[i32],
    exponents: &[i32],
    epochs: &[u64],
    marks: &[u8],
    kind: u64,
    method: u64,
    layer: u64,
    lat: i32,
    lon: i32,
    second: u64,
    nodes: &mut [i64],
    lacking: &mut [u64],
) -> u64
    ensures outcome { ExplainCrosses header.now texts.now (asks header.now texts.now
        (six tec.now rms.now height.now exponents.now epochs.now marks.now)
        kind method layer lat lon second) nodes.old lacking.old result nodes.new lacking.new }
{
    let short = c_why::too_short(header.len(), texts.len(), nodes.len(), lacking.len());
    if 0 < short {
        return short;
    }
    let h = c_given::header_in(header);
    let x = c_given::texts_in(texts);
    let answer = ask_why::explain(
        h,
        x,
        &texts[LINES..END],
        tec,
        rms,
        height,
        exponents,
        epochs,
        marks,
        kind,
        method,
        layer,
        lat,
        lon,
        second,
    );
    c_why::put_explained(answer, nodes, lacking)
}
