// The biases of a text's header, and as other languages have them read.
ghost use Rattle.std.specs.Prelude.{◌≡◌};
ghost use Rattle.bias_fill.specs.Flat.{lent};
ghost use Rattle.bias_text.specs.Biased.{outcome, comes};
ghost use Rattle.c_biases.specs.BiasesExported.{crossed, biases_crossed};

use bias_scan::Counts;
use read_outcome::Reason;

// A text's biases into three lent areas: four numbers for each satellite, three numbers and 20 bytes for each station; or the reason why not.
pub fn biases(
    text: &[u8],
    satellites: &mut [i32],
    stations: &mut [i32],
    names: &mut [u8],
) -> Result<Counts, Reason>
    ensures outcome { comes result (lent satellites.new stations.new names.new)
        ≡ outcome text.now (lent satellites.old stations.old names.old) }
{
    bias_text::read_biases(text, satellites, stations, names)
}

// The same: 0, with how many satellites and stations; or 01's number, with its place.
#[unsafe(no_mangle)]
pub extern "C" fn ionex_biases(
    text: &[u8],
    satellites: &mut [i32],
    stations: &mut [i32],
    names: &mut [u8],
    counts: &mut [u64],
    place: &mut [u64],
) -> u64
    ensures outcome { crossed result (lent satellites.new stations.new names.new) counts.new place.new
        ≡ biases_crossed text.now (lent satellites.old stations.old names.old) counts.old place.old }
{
    if counts.len() < 2 {
        return 103;
    }
    if place.len() < 2 {
        return 103;
    }
    let answer = biases(text, satellites, stations, names);
    c_biases::put_biased(answer, counts, place)
}
