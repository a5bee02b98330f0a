// Two map sets joined, and as other languages have them joined.
ghost use Rattle.std.specs.Prelude.{◌≡◌};
ghost use Rattle.mapset.specs.Described.{full};
ghost use Rattle.mapset.specs.Areas.{six};
ghost use Rattle.join.specs.Into.{lent_of, join_into};
ghost use Rattle.join_areas.specs.Joined.{comes, came};
ghost use Rattle.c_answers.specs.ReadExported.{crossed};
ghost use Rattle.c_answers.specs.JoinExported.{join_crossed};

use c_given::{END, LINES};
use join_areas::Refusal;
use mapset::{Header, Texts};

// Two map sets, the earlier first, into six lent areas: the header of both, or the reason why not. The texts are the later set's.
pub fn join(
    early: Header,
    etexts: Texts,
    edescriptions: &[u8],
    atec: &[i32],
    arms: &[i32],
    aheight: &[i32],
    aexponents: &[i32],
    aepochs: &[u64],
    amarks: &[u8],
    late: Header,
    ltexts: Texts,
    ldescriptions: &[u8],
    btec: &[i32],
    brms: &[i32],
    bheight: &[i32],
    bexponents: &[i32],
    bepochs: &[u64],
    bmarks: &[u8],
    tec: &mut [i32],
    rms: &mut [i32],
    height: &mut [i32],
    exponents: &mut [i32],
    epochs: &mut [u64],
    marks: &mut [u8],
) -> Result<Header, Refusal>
    ensures outcome { comes result (full ltexts ldescriptions.now)
        (six tec.new rms.new height.new exponents.new epochs.new marks.new)
        ≡ came (join_into (lent_of early (full etexts edescriptions.now)
        (six atec.now arms.now aheight.now aexponents.now aepochs.now amarks.now))
        (lent_of late (full ltexts ldescriptions.now)
        (six btec.now brms.now bheight.now bexponents.now bepochs.now bmarks.now))
        (six tec.old rms.old height.old exponents.old epochs.old marks.old))
        (six tec.old rms.old height.old exponents.old epochs.old marks.old) }
{
    join_areas::join_sets(
        early,
        etexts,
        edescriptions,
        atec,
        arms,
        aheight,
        aexponents,
        aepochs,
        amarks,
        late,
        ltexts,
        ldescriptions,
        btec,
        brms,
        bheight,
        bexponents,
        bepochs,
        bmarks,
        tec,
        rms,
        height,
        exponents,
        epochs,
        marks,
    )
}

// Two map sets joined: 0, with the header record and its texts; or 31, 40, 41, 42; or 11, with its place.
#[unsafe(no_mangle)]
pub extern "C" fn ionex_join(
    aheader: &[i64],
    atexts: &[u8],
    atec: &[i32],
    arms: &[i32],
    aheight: &[i32],
    aexponents: &[i32],
    aepochs: &[u64],
    amarks: &[u8],
    bheader: &[i64],
    btexts: &[u8],
    btec: &[i32],
    brms: &[i32],
    bheight: &[i32],
    bexponents: &[i32],
    bepochs: &[u64],
    bmarks: &[u8],
    tec: &mut [i32],
    rms: &mut [i32],
    height: &mut [i32],
    exponents: &mut [i32],
    epochs: &mut [u64],
    marks: &mut [u8],
    header: &mut [i64],
    texts: &mut [u8],
    place: &mut [u64],
) -> u64
    ensures outcome { crossed result
        (six tec.new rms.new height.new exponents.new epochs.new marks.new)
        header.new texts.new place.new
        ≡ join_crossed aheader.now atexts.now
        (six atec.now arms.now aheight.now aexponents.now aepochs.now amarks.now)
        bheader.now btexts.now
        (six btec.now brms.now bheight.now bexponents.now bepochs.now bmarks.now)
        (six tec.old rms.old height.old exponents.old epochs.old marks.old)
        header.old texts.old place.old }
{
    let headers = c_answers::shortest(aheader.len(), bheader.len(), header.len());
    let bytes = c_answers::shortest(atexts.len(), btexts.len(), texts.len());
    let short = c_answers::too_short(headers, bytes, place.len(), 2);
    if 0 < short {
        return short;
    }
    let early = c_given::header_in(aheader);
    let etexts = c_given::texts_in(atexts);
    let late = c_given::header_in(bheader);
    let ltexts = c_given::texts_in(btexts);
    let r = join(
        early,
        etexts,
        &atexts[LINES..END],
        atec,
        arms,
        aheight,
        aexponents,
        aepochs,
        amarks,
        late,
        ltexts,
        &btexts[LINES..END],
        btec,
        brms,
        bheight,
        bexponents,
        bepochs,
        bmarks,
        tec,
        rms,
        height,
        exponents,
        epochs,
        marks,
    );
    c_answers::put_joined(r, ltexts, &btexts[LINES..END], header, texts, place)
}
