// Many questions in one call: the set is looked at once, and each answer is `ask`'s.
#![tactic(auto)]

ghost use Rattle.std.specs.Prelude.{◌≡◌, ◌<◌, ◌≤◌, length};
ghost use Rattle.mapset.specs.Described.{full};
ghost use Rattle.mapset.specs.Areas.{six};
ghost use Rattle.ask.specs.Ask.{question, told_number, told as told_asked};
ghost use Rattle.ask.specs.Looked.{ValueAt};
ghost use Rattle.ask_all.specs.AskAll.{places, slots, count, value_or, Each, AsksAll, told};
ghost use Rattle.ask_all.specs.Filling.{stored, AllAskable};

use ask::{Value, Why};
use ask_nodes::Shape;
use mapset::{Header, Texts};

fn number_in(answer: Result<Value, Why>) -> u8
    ensures { result ≡ told_number (told_asked answer) }
{
    match answer {
        Ok(_) => 0,
        Err(why) => ask::number_of(why) as u8,
    }
}

fn value_in(answer: Result<Value, Why>, found: i32) -> i32
    ensures { result ≡ value_or found (told_asked answer) }
{
    match answer {
        Ok(Value::Tecu(v)) => v.0,
        Ok(Value::Km(v)) => v.0,
        Err(_) => found,
    }
}

// The answer of question k: its number, and its value, which a refusal leaves as found.
fn put(answer: Result<Value, Why>, k: usize, answers: &mut [u8], values: &mut [i32])
    requires { (k < length answers.old) × (k < length values.old) }
    ensures { slots answers.new values.new ≡ stored (told_asked answer) k (slots answers.old values.old) }
{
    answers[k] = number_in(answer);
    values[k] = value_in(answer, values[k]);
}

// The first n questions of a set that was looked at.
fn answer_each(
    header: Header,
    s: Shape,
    gap: u64,
    tec: &[i32],
    rms: &[i32],
    height: &[i32],
    exponents: &[i32],
    epochs: &[u64],
    marks: &[u8],
    method: u64,
    lats: &[i32],
    lons: &[i32],
    seconds: &[u64],
    n: usize,
    answers: &mut [u8],
    values: &mut [i32],
)
    requires { AllAskable header s
        (six tec.now rms.now height.now exponents.now epochs.now marks.now)
        method × (n ≤ count (places lats.now lons.now seconds.now) (slots answers.old values.old)) }
    ensures { Each (ValueAt header s
        (six tec.now rms.now height.now exponents.now epochs.now marks.now)
        method) n (places lats.now lons.now seconds.now)
        (slots answers.old values.old) (slots answers.new values.new) }
{
    for k in 0..n {
        let answer = ask::value_at(
            header, s, gap, tec, rms, height, exponents, epochs, marks, method, lats[k], lons[k],
            seconds[k],
        );
        put(answer, k, answers, values);
    }
}

// Each question has its answer; or why none has.
pub fn ask_all(
    header: Header,
    texts: Texts,
    descriptions: &[u8],
    tec: &[i32],
    rms: &[i32],
    height: &[i32],
    exponents: &[i32],
    epochs: &[u64],
    marks: &[u8],
    kind: u64,
    method: u64,
    layer: u64,
    lats: &[i32],
    lons: &[i32],
    seconds: &[u64],
    answers: &mut [u8],
    values: &mut [i32],
) -> Result<(), Why>
    ensures { AsksAll (question header (full texts descriptions.now)
        (six tec.now rms.now height.now exponents.now epochs.now marks.now)
        kind method layer) (places lats.now lons.now seconds.now)
        (slots answers.old values.old) (told result) (slots answers.new values.new) }
{
    ask::look(
        header,
        texts,
        descriptions,
        tec,
        rms,
        height,
        exponents,
        epochs,
        marks,
        kind,
        method,
    )?;
    let n = lats
        .len()
        .min(lons.len())
        .min(seconds.len())
        .min(answers.len())
        .min(values.len());
    answer_each(
        header,
        ask::shape_of(header, kind, layer),
        ask_spans::mean_gap(header.times.first, header.times.last, header.times.maps),
        tec,
        rms,
        height,
        exponents,
        epochs,
        marks,
        method,
        lats,
        lons,
        seconds,
        n,
        answers,
        values,
    );
    Ok(())
}
