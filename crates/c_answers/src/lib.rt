// An answer as it crosses to other languages: its number, and what it brings in areas of the call's own.
#![tactic(auto)]

ghost use Rattle.mapset.specs.Described.{full};
ghost use Rattle.std.specs.Prelude.{◌≡◌, [], ◌∷◌, ◌≤◌, length};
ghost use Rattle.kit.specs.Lists.{front};
ghost use Rattle.read_outcome.specs.Outcome.{told_number as read_number, told_place, told as told_read, told_reason, texts_in};
ghost use Rattle.write_text.specs.Write.{done, told as told_written};
ghost use Rattle.ask.specs.Ask.{told as told_asked, told_number as ask_number, tecu};
ghost use Rattle.ask_all.specs.AskAll.{told as told_all};
ghost use Rattle.delay.specs.Delay.{told as told_delay};
ghost use Rattle.ask_delay.specs.AskDelay.{told as told_asked_delay};
ghost use Rattle.calendar.specs.Calendar.{told_when};
ghost use Rattle.c_answers.specs.Own.{too_short};
ghost use Rattle.c_answers.specs.Own as own;
ghost use Rattle.join_areas.specs.Joined.{told_why};
ghost use Rattle.c_answers.specs.ReadExported.{told_header, told_texts, Small};
ghost use Rattle.c_answers.specs.NeedsExported.{listed, number as needs_number, told_needs, place as needs_place};
ghost use Rattle.c_answers.specs.WriteExported.{told_number as write_number, told_count};
ghost use Rattle.c_answers.specs.AskExported.{told_value};
ghost use Rattle.c_answers.specs.DelayExported.{told_number as delay_number, told_record};
ghost use Rattle.c_answers.specs.MoveExported.{told_number as move_number, told_moved};
ghost use Rattle.c_answers.specs.JoinExported.{why_number, why_place, answer_number, answer_header, answer_texts, answer_place, Small as SmallJoined};

use ask::Value;
use delay::Delay;
use join_areas::Refusal;
use mapset::{Header, Texts};
use read_needs::Elements;
use read_outcome::{ReadOut, Reason};
use write_text::Unwritten;

// ---- The areas of a call's own

// Of their lengths, and the elements of the result: 101, 102 or 103 for the first that is too short, or 0.
pub fn too_short(header: usize, texts: usize, res: usize, elements: usize) -> u64
    ensures { result ≡ too_short header texts res elements }
{
    if header < 45 {
        return 101;
    }
    if texts < 1324 {
        return 102;
    }
    if res < elements {
        return 103;
    }
    0
}

// Where the result has two areas: 103 for either.
pub fn too_short_two(header: usize, texts: usize, a: usize, m: usize, b: usize, n: usize) -> u64
    ensures { result ≡ own.too_short_two header texts a m b n }
{
    let short = too_short(header, texts, a, m);
    if 0 < short {
        return short;
    }
    too_short(header, texts, b, n)
}

// Of three headers or texts.
pub fn shortest(a: usize, b: usize, c: usize) -> usize
    ensures { result ≡ own.shortest a b c }
{
    a.min(b.min(c))
}

// ---- Reading

// A refusal crosses: its number, and its place.
fn put_refusal(reason: Reason, place: &mut [u64]) -> u64
    requires { 2 ≤ length place.old }
    ensures { (result ≡ read_number (told_reason reason)) × (place.new ≡ front (told_place (told_reason reason)) place.old) }
{
    let w = read_outcome::refusal_of(reason);
    c_header::put_pair(place, w.first, w.second);
    w.number
}

// A reading crosses: its number; the header record and its texts, or the place.
pub fn put_reading(r: ReadOut, header: &mut [i64], texts: &mut [u8], place: &mut [u64]) -> u64
    requires { (45 ≤ length header.old) × ((1324 ≤ length texts.old) × ((2 ≤ length place.old) × Small r.answer)) }
    ensures { (result ≡ read_number (told_read r.answer))
        × ((header.new ≡ front (told_header (told_read r.answer)) header.old)
        × ((texts.new ≡ front (told_texts (told_read r.answer) (texts_in r)) texts.old)
        × (place.new ≡ front (told_place (told_read r.answer)) place.old))) }
{
    match r.answer {
        Ok(h) => {
            c_header::put_header(header, h);
            c_header::put_texts(texts, r.texts, &r.descriptions.bytes);
            0
        }
        Err(reason) => put_refusal(reason, place),
    }
}

// ---- What a text needs

fn put_elements(out: &mut [u64], n: Elements)
    requires { 6 ≤ length out.old }
    ensures { out.new ≡ front (listed n) out.old }
{
    out[0] = n.tec as u64;
    out[1] = n.rms as u64;
    out[2] = n.height as u64;
    out[3] = n.exponents as u64;
    out[4] = n.epochs as u64;
    out[5] = n.marks as u64;
}

// What a text needs crosses: its number; the six needs, or the place.
pub fn put_needs(measured: Result<Elements, Reason>, needs: &mut [u64], place: &mut [u64]) -> u64
    requires { (6 ≤ length needs.old) × (2 ≤ length place.old) }
    ensures { (result ≡ needs_number measured)
        × ((needs.new ≡ front (told_needs measured) needs.old)
        × (place.new ≡ front (needs_place measured) place.old)) }
{
    match measured {
        Ok(n) => {
            put_elements(needs, n);
            0
        }
        Err(reason) => put_refusal(reason, place),
    }
}

// ---- Writing

fn put_count(out: &mut [u64], n: u64)
    requires { 1 ≤ length out.old }
    ensures { out.new ≡ front (told_count (done n)) out.old }
{
    out[0] = n;
}

// An answer crosses: its number, and the bytes written or needed.
pub fn put_written(answer: Result<u64, Unwritten>, count: &mut [u64]) -> u64
    requires { 1 ≤ length count.old }
    ensures { (result ≡ write_number (told_written answer)) × (count.new ≡ front (told_count (told_written answer)) count.old) }
{
    match answer {
        Ok(n) => {
            put_count(count, n);
            0
        }
        Err(Unwritten::Short(n)) => {
            put_count(count, n);
            30
        }
        Err(Unwritten::Unsound) => 31,
    }
}

// ---- Asking

fn put_value(out: &mut [i32], v: i32)
    requires { 1 ≤ length out.old }
    ensures { out.new ≡ front (told_value (tecu v)) out.old }
{
    out[0] = v;
}

// An answer crosses: its number, and its value if it has one.
pub fn put_answer(answer: Result<Value, ask::Why>, out: &mut [i32]) -> u64
    requires { 1 ≤ length out.old }
    ensures { (result ≡ ask_number (told_asked answer)) × (out.new ≡ front (told_value (told_asked answer)) out.old) }
{
    match answer {
        Ok(Value::Tecu(v)) => {
            put_value(out, v.0);
            0
        }
        Ok(Value::Km(v)) => {
            put_value(out, v.0);
            0
        }
        Err(why) => ask::number_of(why),
    }
}

// Many questions cross: 0, or the number that refuses them all.
pub fn all_number(answer: Result<(), ask::Why>) -> u64
    ensures { result ≡ told_all answer }
{
    match answer {
        Ok(()) => 0,
        Err(why) => ask::number_of(why),
    }
}

// ---- Delays

fn put_record(out: &mut [f64], d: Delay)
    requires { 3 ≤ length out.old }
    ensures { out.new ≡ front (d.carrier ∷ d.tecu ∷ d.metres ∷ []) out.old }
{
    out[0] = d.carrier;
    out[1] = d.tecu;
    out[2] = d.metres;
}

// A delay crosses: its number, and the record if there is one.
pub fn put_delay(delayed: Option<Delay>, out: &mut [f64]) -> u64
    requires { 3 ≤ length out.old }
    ensures { (result ≡ delay_number (told_delay delayed)) × (out.new ≡ front (told_record (told_delay delayed)) out.old) }
{
    match delayed {
        Some(d) => {
            put_record(out, d);
            0
        }
        None => 25,
    }
}

// The delay of a question crosses.
pub fn put_asked_delay(answer: Result<Option<Delay>, ask::Why>, out: &mut [f64]) -> u64
    requires { 3 ≤ length out.old }
    ensures { (result ≡ delay_number (told_asked_delay answer)) × (out.new ≡ front (told_record (told_asked_delay answer)) out.old) }
{
    match answer {
        Ok(d) => put_delay(d, out),
        Err(why) => ask::number_of(why),
    }
}

// ---- Moving an epoch

// An epoch moved crosses: its number, and the epoch if there is one.
pub fn put_moved(when: Option<u64>, out: &mut [u64]) -> u64
    requires { 1 ≤ length out.old }
    ensures { (result ≡ move_number (told_when when)) × (out.new ≡ front (told_moved (told_when when)) out.old) }
{
    match when {
        Some(t) => {
            out[0] = t;
            0
        }
        None => 7,
    }
}

// ---- Joining

fn put_why(why: Refusal, place: &mut [u64]) -> u64
    requires { 2 ≤ length place.old }
    ensures { (result ≡ why_number (told_why why)) × (place.new ≡ front (why_place (told_why why)) place.old) }
{
    match why {
        Refusal::NotValid => 31,
        Refusal::Unlike => 40,
        Refusal::Apart => 41,
        Refusal::TooMany => 42,
        Refusal::AreaTooShort(area, need) => {
            c_header::put_pair(place, area, need);
            11
        }
    }
}

// Two sets joined cross: the number; the header record and the later set's texts, or the place.
pub fn put_joined(
    r: Result<Header, Refusal>,
    x: Texts,
    descriptions: &[u8],
    header: &mut [i64],
    texts: &mut [u8],
    place: &mut [u64],
) -> u64
    requires { (45 ≤ length header.old) × ((1324 ≤ length texts.old) × ((2 ≤ length place.old) × ((length descriptions.now ≡ 1200) × SmallJoined r))) }
    ensures { (result ≡ answer_number r)
        × ((header.new ≡ front (answer_header r) header.old)
        × ((texts.new ≡ front (answer_texts r (full x descriptions.now)) texts.old)
        × (place.new ≡ front (answer_place r) place.old))) }
{
    match r {
        Ok(h) => {
            c_header::put_header(header, h);
            c_header::put_texts(texts, x, descriptions);
            0
        }
        Err(why) => put_why(why, place),
    }
}
