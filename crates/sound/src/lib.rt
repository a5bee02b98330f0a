// What has to hold of the area lengths, the epochs and the marks, and with the header, before a value is looked at.
#![tactic(auto)]

ghost use Rattle.std.specs.Prelude.{◌≡◌, ◌≤◌, length};
ghost use Rattle.mapset.specs.Described.{full};
ghost use Rattle.mapset.specs.Areas.{six};
ghost use Rattle.kit.specs.Truth.{truth};
ghost use Rattle.mapset.specs.Grid.{Limits};
ghost use Rattle.mapset.specs.Sound.{epochs?, lengths?};
ghost use Rattle.mapset.specs.SoundDecided.{run?, sound?};

use mapset::{Header, Kind, Lengths, Texts, Times, axes};

// Each epoch follows the one before, and the last one is the header's.
fn epochs_run(interval: u32, last: u64, first: u64, rest: &[u64]) -> bool
    ensures { result ≡ truth (run? interval last first rest.now) }
{
    let mut before = first;
    for epoch in rest {
        if !mapset::follows(interval, before, *epoch) {
            return false;
        }
        before = *epoch;
    }
    before == last
}

fn epochs_fit(times: Times, epochs: &[u64]) -> bool
    ensures { result ≡ truth (epochs? times epochs.now) }
{
    match epochs {
        [] => false,
        [first, rest @ ..] => {
            (*first == times.first) & epochs_run(times.interval, times.last, *first, rest)
        }
    }
}

fn lengths_fit(header: Header, marks: &[u8], l: Lengths) -> bool
    requires { Limits header.times.maps header.grid }
    ensures { result ≡ truth (lengths? header marks.now l) }
{
    let blocks = (header.times.maps as u64) * axes::per_map(header.grid);
    let values = (blocks * axes::nodes(header.grid.longitudes)) as usize;
    let rms = mapset::need(Kind::Rms, marks, values);
    let height = mapset::need(Kind::Height, marks, values);
    let exponents = (3 * blocks) as usize;
    (values <= l.tec) & ((rms <= l.rms) & ((height <= l.height) & (exponents <= l.exponents)))
}

pub fn sound(
    header: Header,
    texts: Texts,
    descriptions: &[u8],
    tec: &[i32],
    rms: &[i32],
    height: &[i32],
    exponents: &[i32],
    epochs: &[u64],
    marks: &[u8],
) -> bool
    ensures { result ≡ truth (sound? header (full texts descriptions.now)
        (six tec.now rms.now height.now exponents.now epochs.now marks.now)) }
{
    if !sound_header::header_fits(header, texts, descriptions) {
        return false;
    }
    let maps = header.times.maps as usize;
    if epochs.len() < maps || marks.len() < maps {
        return false;
    }
    let lengths = Lengths {
        tec: tec.len(),
        rms: rms.len(),
        height: height.len(),
        exponents: exponents.len(),
    };
    epochs_fit(header.times, &epochs[..maps])
        & (sound_header::all_within(0, 3, &marks[..maps])
            & lengths_fit(header, &marks[..maps], lengths))
}
