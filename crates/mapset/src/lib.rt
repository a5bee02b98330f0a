// The map set's header record, as document 01 lists it: each field looked at, and which starred records stand.
// The field of a starred record that does not stand holds 0.
#![tactic(auto)]

ghost use Rattle.std.specs.Prelude.{◌≡◌, ◌*◌, ◌<◌};
ghost use Rattle.kit.specs.Answer.{pick};
ghost use Rattle.kit.specs.Truth.{truth};
ghost use Rattle.mapset.specs.Areas.{present?, nowhere?, first_of};
ghost use Rattle.mapset.specs.Decisions.{takes_code?, follows?};

pub mod axes;

// The version record: version in tenths, type, and the code's place in the list of codes.
#[derive(Clone, Copy)]
pub struct Version {
    pub tenths: u32,
    pub kind: u8,
    pub code: u32,
}

// Whether a version has the code of this place: the nine, and under 1.0 GPS and GLO besides.
pub fn takes_code(tenths: u32, code: u32) -> bool
    ensures { result ≡ truth (takes_code? tenths code) }
{
    (code < 9) | ((tenths == 10) & (code < 11))
}

// The epochs of the first and the last TEC map in seconds from 1900, INTERVAL, and the number of TEC maps.
#[derive(Clone, Copy)]
pub struct Times {
    pub first: u64,
    pub last: u64,
    pub interval: u32,
    pub maps: u32,
}

// Elevation cutoff in tenths of a degree, base radius in tenths of a kilometre, and the map dimension.
#[derive(Clone, Copy)]
pub struct Model {
    pub cutoff: u32,
    pub radius: u32,
    pub dimension: u32,
}

// From first to last by step, in tenths of a kilometre or of a degree.
#[derive(Clone, Copy)]
pub struct Axis {
    pub first: i32,
    pub last: i32,
    pub step: i32,
}

#[derive(Clone, Copy)]
pub struct Grid {
    pub heights: Axis,
    pub latitudes: Axis,
    pub longitudes: Axis,
}

// # OF STATIONS or # OF SATELLITES.
#[derive(Clone, Copy)]
pub struct Counted {
    pub stands: bool,
    pub count: u32,
}

// SYS / #STA / #SAT of one letter.
#[derive(Clone, Copy)]
pub struct System {
    pub stands: bool,
    pub stations: u32,
    pub satellites: u32,
}

// One field for each letter of 01.
#[derive(Clone, Copy)]
pub struct Systems {
    pub g: System,
    pub r: System,
    pub e: System,
    pub c: System,
    pub j: System,
    pub i: System,
    pub s: System,
}

// What a header says but its texts; the last is the number of DESCRIPTION lines.
#[derive(Clone, Copy)]
pub struct Header {
    pub version: Version,
    pub times: Times,
    pub model: Model,
    pub grid: Grid,
    pub stations: Counted,
    pub satellites: Counted,
    pub systems: Systems,
    pub descriptions: u32,
}

// What a map holds: total electron content, its error, or the height it stands at.
#[derive(Clone, Copy, PartialEq, Eq)]
pub enum Kind {
    Tec,
    Rms,
    Height,
}

// The header's texts: PGM / RUN BY / DATE, MAPPING FUNCTION, OBSERVABLES USED.
#[derive(Clone, Copy)]
pub struct Texts {
    pub program: [u8; 20],
    pub agency: [u8; 20],
    pub date: [u8; 20],
    pub mapping: [u8; 4],
    pub observables: [u8; 60],
}

// The DESCRIPTION lines of 60 columns, one behind the other, then blanks: room for 20.
#[derive(Clone, Copy)]
pub struct Descriptions {
    pub bytes: [u8; 1200],
}

// How large the map set is: n, L.R and C.
#[derive(Clone, Copy)]
pub struct Size {
    pub maps: usize,
    pub blocks: usize,
    pub columns: usize,
}

// The lengths of the areas that hold a number for each node or block.
#[derive(Clone, Copy)]
pub struct Lengths {
    pub tec: usize,
    pub rms: usize,
    pub height: usize,
    pub exponents: usize,
}

// Whether a map's mark says that the kind's map is there.
pub fn present(kind: Kind, mark: u8) -> bool
    ensures { result ≡ truth (present? kind mark) }
{
    match kind {
        Kind::Tec => true,
        Kind::Rms => (mark == 1) | (mark == 3),
        Kind::Height => (mark == 2) | (mark == 3),
    }
}

// Whether no map of the kind is there.
fn nowhere(kind: Kind, marks: &[u8]) -> bool
    ensures { result ≡ truth (nowhere? kind marks.now) }
{
    marks.iter().all(|mark| !present(kind, *mark))
}

// The values that a kind needs: none where no map is marked with it.
pub fn need(kind: Kind, marks: &[u8], values: usize) -> usize
    ensures { result ≡ pick (nowhere? kind marks.now) 0 values }
{
    if nowhere(kind, marks) { 0 } else { values }
}

// How many blocks stand before those of a kind, where each kind has so many.
pub fn blocks_before(kind: Kind, blocks: usize) -> usize
    requires { 2 * blocks < 9223372036854775808 }
    ensures { result ≡ first_of kind blocks }
{
    match kind {
        Kind::Tec => 0,
        Kind::Rms => blocks,
        Kind::Height => blocks + blocks,
    }
}

// Later than the one before by 1 to 21,600 s, and by exactly INTERVAL unless that is 0.
pub fn follows(interval: u32, before: u64, epoch: u64) -> bool
    ensures { result ≡ truth (follows? interval before epoch) }
{
    if epoch <= before {
        return false;
    }
    let gap = epoch - before;
    gap <= 21600 && (interval == 0 || gap == interval as u64)
}
