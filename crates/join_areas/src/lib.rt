// Two map sets joined into six lent areas: judged first, and stored only where they may be joined and each area is long enough.
#![tactic(auto)]

ghost use Rattle.std.specs.Prelude.{◌≡◌};
ghost use Rattle.kit.specs.Lists.{front};
ghost use Rattle.mapset.specs.Described.{full};
ghost use Rattle.mapset.specs.Areas.{six};
ghost use Rattle.join.specs.Into.{lent_of, join_into};
ghost use Rattle.join_areas.specs.declared.Refusal.TheVariants.{AreaTooShort};
ghost use Rattle.join_areas.specs.Joined.{some_of, kinds_left, KindFits, kind_beside, Fillable, all_beside, Ready, puts, stored, Said, comes, came};

use mapset::{Header, Kind, Texts, Times};
use read_needs::{Elements, Others, Short};

// 31, 40, 41 and 42 of document 02; and 11, with the area and the elements it needs.
#[derive(Clone, Copy)]
pub enum Refusal {
    NotValid,
    Unlike,
    Apart,
    TooMany,
    AreaTooShort(u64, u64),
}

// An area that is too short.
impl From<Short> for Refusal {
    ghost from_gives = { λ s e. e ≡ AreaTooShort s.area s.need };

    fn from(s: Short) -> Refusal {
        Refusal::AreaTooShort(s.area, s.need)
    }
}

// Whether some map of the kind is there.
fn has(kind: Kind, marks: &[u8]) -> bool
    ensures { result ≡ some_of kind marks.now }
{
    0 < mapset::need(kind, marks, 1)
}

// Which kinds the joined set has: one that only the earlier set's last map had is not among them.
fn left(early: &[u8], late: &[u8]) -> Others
    ensures { result ≡ kinds_left early.now late.now }
{
    Others {
        rms: has(Kind::Rms, early) | has(Kind::Rms, late),
        height: has(Kind::Height, early) | has(Kind::Height, late),
    }
}

// The values of a kind, width of them to a map; the marks are those of the maps of each set.
fn join_kind(
    kind: Kind,
    width: usize,
    early: &[u8],
    late: &[u8],
    a: &[i32],
    b: &[i32],
    out: &mut [i32],
)
    requires { KindFits kind width early.now late.now a.now b.now out.old }
    ensures { out.new ≡ front (kind_beside kind width early.now late.now a.now b.now) out.old }
{
    let k = early.len() - 1;
    let n = late.len();
    let behind = has(kind, late);
    let some = has(kind, &early[..k]) | behind;
    let before = has(kind, early);
    join_lists::join_values(some, before, behind, k * width, n * width, a, b, out);
}

// The six areas of two sets of m and n maps.
fn fill_all(
    m: usize,
    n: usize,
    blocks: usize,
    columns: usize,
    atec: &[i32],
    arms: &[i32],
    aheight: &[i32],
    aexponents: &[i32],
    aepochs: &[u64],
    amarks: &[u8],
    btec: &[i32],
    brms: &[i32],
    bheight: &[i32],
    bexponents: &[i32],
    bepochs: &[u64],
    bmarks: &[u8],
    tec: &mut [i32],
    rms: &mut [i32],
    height: &mut [i32],
    exponents: &mut [i32],
    epochs: &mut [u64],
    marks: &mut [u8],
)
    requires { Fillable m n blocks columns
        (six atec.now arms.now aheight.now aexponents.now aepochs.now amarks.now)
        (six btec.now brms.now bheight.now bexponents.now bepochs.now bmarks.now)
        (six tec.old rms.old height.old exponents.old epochs.old marks.old) }
    ensures { six tec.new rms.new height.new exponents.new epochs.new marks.new
        ≡ all_beside m n blocks columns
        (six atec.now arms.now aheight.now aexponents.now aepochs.now amarks.now)
        (six btec.now brms.now bheight.now bexponents.now bepochs.now bmarks.now)
        (six tec.old rms.old height.old exponents.old epochs.old marks.old) }
{
    let k = m - 1;
    let width = blocks * columns;
    join_lists::join_values(true, true, true, k * width, n * width, atec, btec, tec);
    join_kind(
        Kind::Rms,
        width,
        &amarks[..m],
        &bmarks[..n],
        arms,
        brms,
        rms,
    );
    join_kind(
        Kind::Height,
        width,
        &amarks[..m],
        &bmarks[..n],
        aheight,
        bheight,
        height,
    );
    join_lists::join_exponents(
        k * blocks,
        m * blocks,
        n * blocks,
        aexponents,
        bexponents,
        exponents,
    );
    join_lists::join_epochs(&aepochs[..k], &bepochs[..n], epochs);
    join_lists::join_marks(&amarks[..k], &bmarks[..n], marks);
}

// Two sets that may be joined, into the areas, if each is long enough.
fn store(
    early: Times,
    late: Header,
    atec: &[i32],
    arms: &[i32],
    aheight: &[i32],
    aexponents: &[i32],
    aepochs: &[u64],
    amarks: &[u8],
    btec: &[i32],
    brms: &[i32],
    bheight: &[i32],
    bexponents: &[i32],
    bepochs: &[u64],
    bmarks: &[u8],
    tec: &mut [i32],
    rms: &mut [i32],
    height: &mut [i32],
    exponents: &mut [i32],
    epochs: &mut [u64],
    marks: &mut [u8],
) -> Result<Header, Refusal>
    requires { Ready early late
        (six atec.now arms.now aheight.now aexponents.now aepochs.now amarks.now)
        (six btec.now brms.now bheight.now bexponents.now bepochs.now bmarks.now) }
    ensures { puts result
        (six tec.new rms.new height.new exponents.new epochs.new marks.new)
        ≡ stored early late
        (six atec.now arms.now aheight.now aexponents.now aepochs.now amarks.now)
        (six btec.now brms.now bheight.now bexponents.now bepochs.now bmarks.now)
        (six tec.old rms.old height.old exponents.old epochs.old marks.old) }
{
    let header = join_head::joined_header(early, late);
    let size = read_needs::size_of(header);
    let m = early.maps as usize;
    let n = late.times.maps as usize;
    let k = m - 1;
    let need = read_needs::needed(size, left(&amarks[..k], &bmarks[..n]));
    let lent = Elements {
        tec: tec.len(),
        rms: rms.len(),
        height: height.len(),
        exponents: exponents.len(),
        epochs: epochs.len(),
        marks: marks.len(),
    };
    read_needs::room_for(need, lent)?;
    fill_all(
        m,
        n,
        size.blocks,
        size.columns,
        atec,
        arms,
        aheight,
        aexponents,
        aepochs,
        amarks,
        btec,
        brms,
        bheight,
        bexponents,
        bepochs,
        bmarks,
        tec,
        rms,
        height,
        exponents,
        epochs,
        marks,
    );
    Ok(header)
}

// The refusals but for 11, in their order.
fn judged(
    early: Header,
    etexts: Texts,
    edescriptions: &[u8],
    atec: &[i32],
    arms: &[i32],
    aheight: &[i32],
    aexponents: &[i32],
    aepochs: &[u64],
    amarks: &[u8],
    late: Header,
    ltexts: Texts,
    ldescriptions: &[u8],
    btec: &[i32],
    brms: &[i32],
    bheight: &[i32],
    bexponents: &[i32],
    bepochs: &[u64],
    bmarks: &[u8],
) -> Result<(), Refusal>
    ensures { Said (lent_of early (full etexts edescriptions.now)
        (six atec.now arms.now aheight.now aexponents.now aepochs.now amarks.now))
        (lent_of late (full ltexts ldescriptions.now)
        (six btec.now brms.now bheight.now bexponents.now bepochs.now bmarks.now))
        result }
{
    if !valid::valid(
        early,
        etexts,
        edescriptions,
        atec,
        arms,
        aheight,
        aexponents,
        aepochs,
        amarks,
    ) {
        return Err(Refusal::NotValid);
    }
    if !valid::valid(
        late,
        ltexts,
        ldescriptions,
        btec,
        brms,
        bheight,
        bexponents,
        bepochs,
        bmarks,
    ) {
        return Err(Refusal::NotValid);
    }
    if !join_head::alike(early, late) {
        return Err(Refusal::Unlike);
    }
    if !join_head::meet(early, late) {
        return Err(Refusal::Apart);
    }
    if !join_head::in_limits(early.times, late) {
        return Err(Refusal::TooMany);
    }
    Ok(())
}

// Two map sets joined into six lent areas: the header of both, whose texts are the later set's, or the reason why not.
pub fn join_sets(
    early: Header,
    etexts: Texts,
    edescriptions: &[u8],
    atec: &[i32],
    arms: &[i32],
    aheight: &[i32],
    aexponents: &[i32],
    aepochs: &[u64],
    amarks: &[u8],
    late: Header,
    ltexts: Texts,
    ldescriptions: &[u8],
    btec: &[i32],
    brms: &[i32],
    bheight: &[i32],
    bexponents: &[i32],
    bepochs: &[u64],
    bmarks: &[u8],
    tec: &mut [i32],
    rms: &mut [i32],
    height: &mut [i32],
    exponents: &mut [i32],
    epochs: &mut [u64],
    marks: &mut [u8],
) -> Result<Header, Refusal>
    ensures { comes result (full ltexts ldescriptions.now)
        (six tec.new rms.new height.new exponents.new epochs.new marks.new)
        ≡ came (join_into (lent_of early (full etexts edescriptions.now)
        (six atec.now arms.now aheight.now aexponents.now aepochs.now amarks.now))
        (lent_of late (full ltexts ldescriptions.now)
        (six btec.now brms.now bheight.now bexponents.now bepochs.now bmarks.now))
        (six tec.old rms.old height.old exponents.old epochs.old marks.old))
        (six tec.old rms.old height.old exponents.old epochs.old marks.old) }
{
    judged(
        early,
        etexts,
        edescriptions,
        atec,
        arms,
        aheight,
        aexponents,
        aepochs,
        amarks,
        late,
        ltexts,
        ldescriptions,
        btec,
        brms,
        bheight,
        bexponents,
        bepochs,
        bmarks,
    )?;
    store(
        early.times,
        late,
        atec,
        arms,
        aheight,
        aexponents,
        aepochs,
        amarks,
        btec,
        brms,
        bheight,
        bexponents,
        bepochs,
        bmarks,
        tec,
        rms,
        height,
        exponents,
        epochs,
        marks,
    )
}
