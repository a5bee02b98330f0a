// The stores of the second scan, each of one area, and what stands there before them.
#![tactic(auto)]

ghost use Rattle.std.specs.Prelude.{◌≡◌, ◌+◌, ◌-◌, ◌*◌, ◌<◌, ◌≤◌, length, set, get_or, replicate, pos, negsuc};
ghost use Rattle.areas.specs.Stores.{with_mark, fill};
ghost use Rattle.mapset.specs.Areas.{first_of};
ghost use Rattle.areas.specs.Places.{before};

use mapset::{Kind, Size};

// How many blocks of its kind stand before block b of map i.
pub fn block_place(i: usize, b: usize, blocks: usize) -> usize
    requires { before blocks i b < 9223372036854775808 }
    ensures { result ≡ before blocks i b }
{
    i.saturating_sub(1) * blocks + b
}

// The place of a block among those of all kinds: the three kinds stand behind each other.
pub fn entry_of(kind: Kind, i: usize, b: usize, size: Size) -> usize
    requires { (before size.blocks i b < size.maps * size.blocks) × (3 * (size.maps * size.blocks) < 9223372036854775808) }
    ensures { result ≡ first_of kind (size.maps * size.blocks) + before size.blocks i b }
{
    mapset::blocks_before(kind, size.maps * size.blocks) + block_place(i, b, size.blocks)
}

pub fn put_exponent(kind: Kind, i: usize, b: usize, e: i32, size: Size, exponents: &mut [i32])
    requires { (before size.blocks i b < size.maps * size.blocks) × (3 * (size.maps * size.blocks) ≤ length exponents.old) }
    ensures { exponents.new ≡ set exponents.old (first_of kind (size.maps * size.blocks) + before size.blocks i b) e }
{
    let p = entry_of(kind, i, b, size);
    exponents[p] = e;
}

// A mark that says of one more kind that it is there: a number, as it lies in the area that C lends.
fn marked(kind: Kind, m: u8) -> u8
    ensures { result ≡ with_mark kind m }
{
    match kind {
        Kind::Tec => m,
        Kind::Rms => if m == 2 || m == 3 { 3 } else { 1 },
        Kind::Height => if m == 1 || m == 3 { 3 } else { 2 },
    }
}

// That map i of a kind is there.
pub fn put_mark(kind: Kind, i: usize, marks: &mut [u8])
    requires { i - 1 < length marks.old }
    ensures { marks.new ≡ set marks.old (i - 1) (with_mark kind (get_or marks.old (i - 1) 0)) }
{
    let p = i.saturating_sub(1);
    marks[p] = marked(kind, marks[p]);
}

// The epoch of TEC map i.
pub fn put_epoch(i: usize, e: u64, epochs: &mut [u64])
    requires { i - 1 < length epochs.old }
    ensures { epochs.new ≡ set epochs.old (i - 1) e }
{
    epochs[i.saturating_sub(1)] = e;
}

// ---- Before the scan: no RMS and no height map is there

pub fn clear_marks(marks: &mut [u8])
    ensures { marks.new ≡ replicate (length marks.old) 0 }
{
    marks.fill(0);
}

pub fn clear_front(area: &mut [i32], k: usize, v: i32)
    requires { k ≤ length area.old }
    ensures { area.new ≡ fill v k area.old }
{
    area[..k].fill(v);
}

// r and t are the needs of RMS and height values, 0 for a kind with no map.
pub fn prefill(
    size: Size,
    r: usize,
    t: usize,
    rms: &mut [i32],
    height: &mut [i32],
    exponents: &mut [i32],
    marks: &mut [u8],
)
    requires { (r ≤ length rms.old) × (t ≤ length height.old) × (3 * (size.maps * size.blocks) ≤ length exponents.old) × (size.maps ≤ length marks.old) }
    ensures rms_after { rms.new ≡ fill (pos 9999) r rms.old }
    ensures height_after { height.new ≡ fill (pos 9999) t height.old }
    ensures exponents_after { exponents.new ≡ fill (negsuc 0) (3 * (size.maps * size.blocks)) exponents.old }
    ensures marks_after { marks.new ≡ fill 0 size.maps marks.old }
{
    let all = 3 * (size.maps * size.blocks);
    clear_front(rms, r, 9999);
    clear_front(height, t, 9999);
    clear_front(exponents, all, -1);
    clear_marks(&mut marks[..size.maps]);
}
