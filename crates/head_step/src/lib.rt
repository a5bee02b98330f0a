// A line of the header, after its version record.
#![tactic(auto)]

ghost use Rattle.std.specs.Prelude.{◌≡◌, false, ◌≤◌, ◌<◌, length};
ghost use Rattle.kit.specs.Answer.{amap};
ghost use Rattle.layout.specs.Text.{pad};
ghost use Rattle.layout.specs.Labels.{content};
ghost use Rattle.layout.specs.Names.{number_of};
ghost use Rattle.reading.specs.Head.{on_end};
ghost use Rattle.head_said.specs.Records.{entry};
ghost use Rattle.head_state.specs.Got.{slots_of, gone, told_kept};
ghost use Rattle.head_step.specs.Step.{ended_in, fresh, exponent_in, by_letter, told_end, Holds, Describes, Steps};

use head_said::content::{self, CONTENTS, Content};
use head_state::State;
use mapset::{Header, Version, axes};
use reading::Fault;

// What is done at a label; a record of the header, by its place.
#[derive(Clone, Copy)]
pub enum Action {
    Misplaced,
    Skipped,
    Exponent,
    Record(usize),
    System,
    AuxStart,
    HeaderEnd,
    Description,
}

const ACTIONS: [Action; 32] = [
    Action::Misplaced,
    Action::Record(0),
    Action::Description,
    Action::Skipped,
    Action::Record(1),
    Action::Record(2),
    Action::Record(3),
    Action::Record(4),
    Action::Record(5),
    Action::Record(6),
    Action::Record(7),
    Action::Record(8),
    Action::Record(9),
    Action::System,
    Action::Record(10),
    Action::Record(11),
    Action::Record(12),
    Action::Record(13),
    Action::Record(14),
    Action::Exponent,
    Action::AuxStart,
    Action::Misplaced,
    Action::HeaderEnd,
    Action::Misplaced,
    Action::Misplaced,
    Action::Misplaced,
    Action::Misplaced,
    Action::Misplaced,
    Action::Misplaced,
    Action::Misplaced,
    Action::Misplaced,
    Action::Misplaced,
];

// A label that may not stand here, or not once more.
const MISPLACED: Fault = Fault {
    number: 5,
    column: 61,
};

// The record at place i of the header, once.
fn at_place(s: &mut State, i: usize, line: &[u8]) -> Result<(), Fault>
    requires { (i < 15) × (length line.now ≤ 80) }
    ensures { told_kept result s.new ≡ fresh s.old i (entry (content i) (pad line.now)) }
{
    if s.values[i].is_some() {
        return Err(MISPLACED);
    }
    match CONTENTS[i] {
        Content::Numbers(which) => {
            let value = content::hear(line, which)?;
            head_state::keep(s, i, value);
            Ok(())
        }
        Content::Program => {
            head_state::keep_program(s, line);
            Ok(())
        }
        Content::Mapping => head_state::keep_mapping(s, line),
        Content::Observables => {
            head_state::keep_observables(s, line);
            Ok(())
        }
    }
}

// SYS once per letter, which is taken as it stands in column 6. A letter that is none of the seven is told after what is ill-formed.
fn at_system(s: &mut State, line: &[u8]) -> Result<(), Fault>
    requires { length line.now ≤ 80 }
    ensures { told_kept result s.new ≡ by_letter s.old (pad line.now) }
{
    let Some(j) = labels::letter_place(fields::byte_at(line, 5)) else {
        content::system_record(line)?;
        return Err(Fault {
            number: 7,
            column: 6,
        });
    };
    if s.values[15 + j].is_some() {
        return Err(MISPLACED);
    }
    let value = content::hear_system(line)?;
    head_state::keep(s, 15 + j, value);
    Ok(())
}

fn at_exponent(s: &mut State, line: &[u8]) -> Result<(), Fault>
    requires { length line.now ≤ 80 }
    ensures { told_kept result s.new ≡ exponent_in s.old (pad line.now) }
{
    let exponent = maps_records::one_number(line)?;
    if !kit::between(-3, 0, exponent) {
        return Err(Fault {
            number: 7,
            column: 1,
        });
    }
    s.exponent = exponent;
    Ok(())
}

// END OF HEADER with its columns blank: a record is missing, the dimension disagrees, the grid is too large.
fn ended(s: &State, version: Version) -> Result<Header, Fault>
    ensures { told_end result s.now ≡ ended_in version (slots_of s.now) s.now.descriptions }
{
    if !head_state::complete(s) {
        return Err(Fault {
            number: 9,
            column: 0,
        });
    }
    let header = head_state::header_of(s, version);
    let agrees = axes::dimension_agrees(header.model.dimension, header.grid.heights);
    let fits = axes::limits_hold(header.times.maps, header.grid);
    if !agrees {
        return Err(Fault {
            number: 8,
            column: 0,
        });
    }
    if !fits {
        return Err(Fault {
            number: 7,
            column: 0,
        });
    }
    Ok(header)
}

fn at_end(s: &State, version: Version, line: &[u8]) -> Result<Header, Fault>
    requires { length line.now ≤ 80 }
    ensures { told_end result s.now ≡ amap (gone version (slots_of s.now) s.now.descriptions) (on_end version (slots_of s.now) s.now.descriptions (pad line.now)) }
{
    maps_records::blank(line, 0, 60)?;
    ended(s, version)
}

// DESCRIPTION: its columns 1 to 60 behind the lines got so far; a twenty-first is refused.
fn at_description(s: &mut State, line: &[u8], lines: &mut [u8]) -> Result<(), Fault>
    requires { (length line.now ≤ 80) × Holds s.old.descriptions lines.old }
    ensures { Describes s.old lines.old (pad line.now) result s.new lines.new }
{
    if 20 <= s.descriptions {
        return Err(MISPLACED);
    }
    let a = 60 * (s.descriptions as usize);
    let e = a + 60;
    fields::text_into(line, 0, &mut lines[a..e]);
    s.descriptions += 1;
    Ok(())
}

// A record with the k-th label, outside aux blocks.
fn by_label(
    s: &mut State,
    version: Version,
    k: usize,
    line: &[u8],
    lines: &mut [u8],
) -> Result<Option<Header>, Fault>
    requires label { (k ≡ number_of line.now) × (k < 32) }
    requires state { (length line.now ≤ 80) × (s.old.aux ≡ false) × Holds s.old.descriptions lines.old }
    ensures { Steps s.old version lines.old (pad line.now) result s.new lines.new }
{
    match ACTIONS[k] {
        Action::Misplaced => Err(MISPLACED),
        Action::Skipped => Ok(None),
        Action::Exponent => {
            at_exponent(s, line)?;
            Ok(None)
        }
        Action::Record(place) => {
            at_place(s, place, line)?;
            Ok(None)
        }
        Action::System => {
            at_system(s, line)?;
            Ok(None)
        }
        Action::AuxStart => {
            s.aux = true;
            Ok(None)
        }
        Action::HeaderEnd => {
            let header = at_end(s, version, line)?;
            Ok(Some(header))
        }
        Action::Description => {
            at_description(s, line, lines)?;
            Ok(None)
        }
    }
}

// A line that is clean and not blank; the DESCRIPTION lines got so far stand in `lines`. It tells the header record where it is END OF
// HEADER. Inside an aux block every line but END OF AUX DATA is skipped.
pub fn step(
    s: &mut State,
    version: Version,
    line: &[u8],
    lines: &mut [u8],
) -> Result<Option<Header>, Fault>
    requires { (length line.now ≤ 80) × Holds s.old.descriptions lines.old }
    ensures { Steps s.old version lines.old (pad line.now) result s.new lines.new }
{
    let k = labels::label_of(line);
    if s.aux {
        s.aux = k != labels::AUX_END;
        return Ok(None);
    }
    // 32 is the definitions' number (`number_of`) of a label that is none of them.
    if 32 <= k {
        return Err(Fault {
            number: 4,
            column: 61,
        });
    }
    by_label(s, version, k, line, lines)
}
