// Two lists one behind the other in a lent area, one area a function; behind them what was there.
#![tactic(auto)]

ghost use Rattle.std.specs.Prelude.{◌≡◌, cond, ◌++◌, ◌+◌, ◌≤◌, length, replicate, pos};
ghost use Rattle.std.proofs.Math.Seq.{paste};
ghost use Rattle.kit.specs.Lists.{front};
ghost use Rattle.mapset.specs.Areas.{first_of};
ghost use Rattle.join_lists.specs.Lists.{or_absent, values_of_two, ThirdsFit, third_of_two, thirds_of_two};

use mapset::Kind;

// A list into an area, from a position on. `copy_from_slice` would have the archive call memmove of the C library.
fn copy_at<T: Copy>(src: &[T], out: &mut [T], at: usize)
    requires { at + length src.now ≤ length out.old }
    ensures { out.new ≡ paste out.old at src.now (length src.now) }
{
    for j in 0..src.len() {
        out[at + j] = src[j];
    }
}

// So many values of maps that are not there.
fn put_absent(n: usize, out: &mut [i32], at: usize)
    requires { at + n ≤ length out.old }
    ensures { out.new ≡ paste out.old at (replicate n (pos 9999)) n }
{
    let end = at + n;
    out[at..end].fill(9999);
}

// So many values of a kind, of a set that has it, or of one that has no map of it.
fn put_values(has: bool, n: usize, src: &[i32], out: &mut [i32], at: usize)
    requires { (cond has n 0 ≤ length src.now) × (at + n ≤ length out.old) }
    ensures { out.new ≡ paste out.old at (or_absent has n src.now) n }
{
    if !has {
        put_absent(n, out, at);
        return;
    }
    copy_at(&src[..n], out, at);
}

// The values of a kind: m of the earlier set and n of the later, unless neither has a map of it.
pub fn join_values(
    some: bool,
    early: bool,
    late: bool,
    m: usize,
    n: usize,
    a: &[i32],
    b: &[i32],
    out: &mut [i32],
)
    requires { (cond early m 0 ≤ length a.now) × (cond late n 0 ≤ length b.now) × (cond some (m + n) 0 ≤ length out.old) }
    ensures { out.new ≡ front (values_of_two some early late m n a.now b.now) out.old }
{
    if !some {
        return;
    }
    put_values(early, m, a, out, 0);
    put_values(late, n, b, out, m);
}

// The exponents of a kind: the first k of its m in the one list, then its n in the other.
fn put_third(kind: Kind, k: usize, m: usize, n: usize, a: &[i32], b: &[i32], out: &mut [i32])
    requires { ThirdsFit k m n a.now b.now out.old }
    ensures { out.new ≡ paste out.old (first_of kind (k + n)) (third_of_two k m n a.now b.now kind) (k + n) }
{
    let i = mapset::blocks_before(kind, m);
    let j = mapset::blocks_before(kind, n);
    let at = mapset::blocks_before(kind, k + n);
    let early = i + k;
    let late = j + n;
    copy_at(&a[i..early], out, at);
    copy_at(&b[j..late], out, at + k);
}

// The exponents of the three kinds.
pub fn join_exponents(k: usize, m: usize, n: usize, a: &[i32], b: &[i32], out: &mut [i32])
    requires { ThirdsFit k m n a.now b.now out.old }
    ensures { out.new ≡ front (thirds_of_two k m n a.now b.now) out.old }
{
    put_third(Kind::Tec, k, m, n, a, b, out);
    put_third(Kind::Rms, k, m, n, a, b, out);
    put_third(Kind::Height, k, m, n, a, b, out);
}

pub fn join_epochs(a: &[u64], b: &[u64], out: &mut [u64])
    requires { length a.now + length b.now ≤ length out.old }
    ensures { out.new ≡ front (a.now ++ b.now) out.old }
{
    copy_at(a, out, 0);
    copy_at(b, out, a.len());
}

pub fn join_marks(a: &[u8], b: &[u8], out: &mut [u8])
    requires { length a.now + length b.now ≤ length out.old }
    ensures { out.new ≡ front (a.now ++ b.now) out.old }
{
    copy_at(a, out, 0);
    copy_at(b, out, a.len());
}
