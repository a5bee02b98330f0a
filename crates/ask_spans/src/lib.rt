// Which maps a second falls between.
#![tactic(auto)]

ghost use Rattle.std.specs.Prelude.{◌≡◌, ◌≤◌, ◌<◌, length};
ghost use Rattle.kit.specs.Truth.{Says};
ghost use Rattle.ask_spans.specs.Time.{epoch, alone, Uses, Close};
ghost use Rattle.ask_spans.specs.Spans.{Regular, Before, Spanned};

// The shares of a map and of the next one.
#[derive(Clone, Copy)]
pub struct Shares {
    pub map: u64,
    pub early: u64,
    pub late: u64,
}

// The mean gap of the epochs, by which the search guesses; nothing hangs on it, so nothing is said of it.
pub fn mean_gap(first: u64, last: u64, maps: u32) -> u64 {
    if maps < 2 {
        return 0;
    }
    if last < first {
        return 0;
    }
    (last - first) / ((maps - 1) as u64)
}

// The map that the second falls to where all gaps are this one.
fn guess(epochs: &[u64], second: u64, gap: u64) -> usize
    requires { (1 ≤ length epochs.now) × (epoch epochs.now 0 ≤ second) }
    ensures { result < length epochs.now }
{
    if gap == 0 {
        return 0;
    }
    let last = epochs.len() - 1;
    ((second - epochs[0]) / gap).min(last as u64) as usize
}

// Whether a map is the last whose epoch is not after the second.
fn is_before(epochs: &[u64], second: u64, i: usize) -> bool
    requires { i < length epochs.now }
    ensures { Says result (Before epochs.now second i) }
{
    if second < epochs[i] {
        return false;
    }
    if epochs.len() - 1 <= i {
        return true;
    }
    if epochs[i + 1] <= second {
        return false;
    }
    true
}

// The last map whose epoch is not after the second, by halves.
fn halved(epochs: &[u64], second: u64) -> usize
    requires { Regular epochs.now × (1 ≤ length epochs.now) × (epoch epochs.now 0 ≤ second) }
    ensures { Before epochs.now second result }
{
    epochs.partition_point(|e| *e <= second) - 1
}

// The last map whose epoch is not after the second: the map guessed by the gap, which is any number; where that is another, by halves.
fn map_before(epochs: &[u64], second: u64, gap: u64) -> usize
    requires { Regular epochs.now × (1 ≤ length epochs.now) × (epoch epochs.now 0 ≤ second) }
    ensures { Before epochs.now second result }
{
    let i = guess(epochs, second, gap);
    if is_before(epochs, second, i) {
        return i;
    }
    halved(epochs, second)
}

// Whether no two neighbouring epochs are more than limit seconds apart.
pub fn is_close(epochs: &[u64], limit: u64) -> bool
    ensures { Says result (Close limit epochs.now) }
{
    epochs
        .windows(2)
        .all(|w| w[1].saturating_sub(w[0]) <= limit)
}

// One map alone.
fn alone(i: usize) -> Shares
    ensures { result ≡ alone i }
{
    Shares {
        map: i as u64,
        early: 1,
        late: 0,
    }
}

// The shares of a second's maps, which are searched by the gap.
pub fn shares_of(epochs: &[u64], second: u64, method: u64, gap: u64) -> Shares
    requires { Regular epochs.now × Spanned epochs.now second × (method < 2) }
    ensures { Uses epochs.now second method result }
{
    let i = map_before(epochs, second, gap);
    if epochs.len() - 1 <= i {
        return alone(i);
    }
    let late = second - epochs[i];
    let early = epochs[i + 1] - second;
    if method == 1 {
        return Shares {
            map: i as u64,
            early: early,
            late: late,
        };
    }
    if early < late {
        return alone(i + 1);
    }
    alone(i)
}
