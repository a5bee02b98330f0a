// The epochs of the TEC maps: how one follows the others.
ghost use Rattle.std.specs.Prelude.{◌≡◌};
ghost use Rattle.kit.specs.Truth.{truth};
ghost use Rattle.reading.specs.Maps as M;

use mapset::Header;

fn is_after(header: Header, epochs: &[u64], e: u64) -> bool
    ensures { result ≡ truth (M.after? header epochs.now e) }
{
    match epochs.last() {
        None => e == header.times.first,
        Some(last) => mapset::follows(header.times.interval, *last, e),
    }
}

// Whether e may be the next epoch after these.
pub fn in_time(header: Header, epochs: &[u64], e: u64) -> bool
    ensures { result ≡ truth (M.in_time? header epochs.now e) }
{
    if !is_after(header, epochs, e) {
        return false;
    }
    if epochs.len() as u64 + 1 == header.times.maps as u64 {
        return e == header.times.last;
    }
    true
}
