// Biases as they cross to other languages: a number, the three areas, and two areas of the call's own.
#![tactic(auto)]

ghost use Rattle.std.specs.Prelude.{◌≤◌, length};
ghost use Rattle.bias_text.specs.Biased.{told};
ghost use Rattle.c_biases.specs.BiasesExported.{BiasesCross};

use bias_scan::Counts;
use read_outcome::Reason;

// An answer crosses: its number; how many satellites and stations, or the place.
pub fn put_biased(answer: Result<Counts, Reason>, counts: &mut [u64], place: &mut [u64]) -> u64
    requires { (2 ≤ length counts.old) × (2 ≤ length place.old) }
    ensures { BiasesCross (told answer) counts.old place.old result counts.new place.new }
{
    match answer {
        Ok(given) => {
            c_header::put_pair(counts, given.satellites as u64, given.stations as u64);
            0
        }
        Err(reason) => {
            let w = read_outcome::refusal_of(reason);
            c_header::put_pair(place, w.first, w.second);
            w.number
        }
    }
}
