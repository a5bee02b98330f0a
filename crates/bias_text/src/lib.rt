// A text's biases into three lent areas: judged first, and stored only where nothing is wrong and each area is long enough.
#![tactic(auto)]

ghost use Rattle.std.specs.Prelude.{◌≡◌, [], ◌∷◌, ◌*◌, ◌<◌};
ghost use Rattle.read_needs.specs.Needs.{fit, first_short};
ghost use Rattle.bias_fill.specs.Flat.{lent};
ghost use Rattle.bias_text.specs.Biased.{Maps, outcome, comes};

use bias_scan::Counts;
use read_needs::Short;
use read_outcome::Reason;

// Satellites, stations, names, in this order: four numbers, three numbers, 20 bytes.
fn room_for(given: Counts, satellites: usize, stations: usize, names: usize) -> Result<(), Short>
    requires { (4 * given.satellites < 18446744073709551616) × (20 * given.stations < 18446744073709551616) }
    ensures { fit result ≡ first_short 1 ((4 * given.satellites, satellites) ∷ (3 * given.stations, stations) ∷ (20 * given.stations, names) ∷ []) }
{
    read_needs::fits(1, 4 * given.satellites, satellites)?;
    read_needs::fits(2, 3 * given.stations, stations)?;
    read_needs::fits(3, 20 * given.stations, names)
}

// The biases of a text whose maps are accepted: how many satellites and stations are given, and they are in the areas.
fn of_header(
    text: &[u8],
    satellites: &mut [i32],
    stations: &mut [i32],
    names: &mut [u8],
) -> Result<Counts, Reason>
    requires { Maps text.now }
    ensures { comes result (lent satellites.new stations.new names.new)
        ≡ outcome text.now (lent satellites.old stations.old names.old) }
{
    let given = bias_scan::judge(text)?;
    room_for(given, satellites.len(), stations.len(), names.len())?;
    bias_fill::fill_areas(text, satellites, stations, names);
    Ok(given)
}

// A text's biases into three lent areas, or the reason why not. The refusals of the maps come first.
pub fn read_biases(
    text: &[u8],
    satellites: &mut [i32],
    stations: &mut [i32],
    names: &mut [u8],
) -> Result<Counts, Reason>
    ensures { comes result (lent satellites.new stations.new names.new)
        ≡ outcome text.now (lent satellites.old stations.old names.old) }
{
    let mut lines = [b' '; 1200];
    read_judge::judge(text, &mut lines)?;
    of_header(text, satellites, stations, names)
}
