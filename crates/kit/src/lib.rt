#![tactic(auto)]

ghost use Rattle.std.specs.Prelude.{◌≡◌, cond, [], ◌∷◌, ◌+◌, ◌<◌, ◌≤◌, ◌^◌, pos, neg_ℤ, nat_abs, length};
ghost use Rattle.std.proofs.lemmas.List.Edits.{sets};
ghost use Rattle.std.specs.Int.Signed.{lt_z};
ghost use Rattle.kit.specs.Integer.{int?, between?};
ghost use Rattle.kit.specs.Range.{lesser as lesser_of};
ghost use Rattle.kit.specs.Truth.{truth};

pub mod wide;

// m with a sign.
pub fn with_sign(below: bool, m: u64) -> i64
    requires { m < 2 ^ 63 }
    ensures { result ≡ cond below (neg_ℤ (pos m)) (pos m) }
{
    if below { 0 - (m as i64) } else { m as i64 }
}

// ---- Numbers as a text holds them

pub fn between(low: i32, high: i32, x: i32) -> bool
    ensures { result ≡ truth (between? low high x) }
{
    low <= x && x <= high
}

// Two of them into an area, from a position on.
pub fn put_two(out: &mut [i32], at: usize, a: i32, b: i32)
    requires { at + 2 ≤ length out.old }
    ensures { out.new ≡ sets out.old at (a ∷ b ∷ []) }
{
    out[at] = a;
    out[at + 1] = b;
}

// ---- Areas

// A slice into an area, from a position on. By `copy_from_slice` the library for C would need memmove beside memcpy.
pub fn copy_at<T: Copy>(from: &[T], out: &mut [T], at: usize)
    requires { at + length from.now ≤ length out.old }
    ensures { out.new ≡ sets out.old at from.now }
{
    for i in 0..from.len() {
        out[at + i] = from[i];
    }
}
