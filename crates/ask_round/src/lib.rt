// Whole-number arithmetic with a sign: a weighted sum, and its one rounding.
#![tactic(auto)]

ghost use Rattle.std.specs.Prelude.{◌≡◌, ◌+◌, ◌*◌, ◌<◌, ◌≤◌, ◌^◌, ℤ, pos, nat_abs, ◌+ℤ◌, ◌*ℤ◌};
ghost use Rattle.ask_round.specs.Rounded.{round_abs, rounded};

// The nearest whole number to m / d, a half rounded up.
fn round_abs(m: u64, d: u64) -> u64
    requires { (0 < d) × (d ≤ 100_000_000_000) × (m ≤ 6_480_000_000_000_000_000) }
    ensures { result ≡ round_abs m d }
{
    let whole = m / d;
    if 2 * (m % d) < d {
        return whole;
    }
    whole + 1
}

// The nearest whole number to s / d, halves away from zero.
pub fn round_half_away(s: i64, d: u64) -> i64
    requires { (0 < d) × (d ≤ 100_000_000_000) × (nat_abs s ≤ 6_480_000_000_000_000_000) }
    ensures { result ≡ rounded s d }
{
    let m = round_abs(s.unsigned_abs(), d);
    kit::with_sign(s < 0, m)
}

// t + w * v.
pub fn mul_add(t: i64, w: u64, v: i32) -> i64
    requires { (w < 2 ^ 63) × (nat_abs t + w * nat_abs v < 2 ^ 63) }
    ensures { result ≡ t +ℤ pos w *ℤ v }
{
    t + (w as i64) * (v as i64)
}
