// The first scan of a text as a whole: its header, then its maps.
#![tactic(auto)]

ghost use Rattle.std.specs.Prelude.{◌≡◌};
ghost use Rattle.mapset.specs.Lines.{no_lines};
ghost use Rattle.read_judge.specs.Scanned.{Judges};

use head::opening;
use mapset::{Header, Texts};
use read_needs::Others;
use reading::Why;

// Of a text that is accepted: the header record and its texts, the exponent in force and the place where the maps start,
// and whether some RMS and some height map stands.
#[derive(Clone, Copy)]
pub struct FirstScan {
    pub header: Header,
    pub exponent: i32,
    pub at: usize,
    pub some: Others,
    pub texts: Texts,
}

// The first time over a text; `lines` is blank, and holds the DESCRIPTION lines where the text is accepted.
#[tactic(auto, using(crate::proofs::JudgeLaws::refused_head))]
pub fn judge(text: &[u8], lines: &mut [u8]) -> Result<FirstScan, Why>
    requires { lines.old ≡ no_lines }
    ensures { Judges text.now result lines.new }
{
    let h = opening::read_header(text, lines)?;
    let some = maps::judge_maps(h.header, h.exponent, text, h.at, h.passed)?;
    Ok(FirstScan {
        header: h.header,
        exponent: h.exponent,
        at: h.at,
        some,
        texts: h.texts,
    })
}
