// The labels of the records, compared by the reader and written by the writer.
#![tactic(auto)]

ghost use Rattle.std.specs.Prelude.{◌≡◌, ◌+◌, ◌<◌, ◌≤◌, length, IfSome, unwrap_or};
ghost use Rattle.std.proofs.Math.Decide.{ℕ_discrete};
ghost use Rattle.layout.specs.Labels.{letters};
ghost use Rattle.layout.specs.Names.{holds, number_of};
ghost use Rattle.reading.specs.Head.{place};
ghost use Rattle.labels.specs.Letters.{found};

// The label that opens a block, as nearly all labels of a file do, and two that may stand between blocks.
const OPENING: [u8; 20] = *b"LAT/LON1/LON2/DLON/H";

const REMARK: [u8; 20] = *b"COMMENT             ";

const POWER: [u8; 20] = *b"EXPONENT            ";

// In 01's order: 23 of the header, 9 of the maps.
pub const LABELS: [[u8; 20]; 32] = [
    *b"IONEX VERSION / TYPE",
    *b"PGM / RUN BY / DATE ",
    *b"DESCRIPTION         ",
    REMARK,
    *b"EPOCH OF FIRST MAP  ",
    *b"EPOCH OF LAST MAP   ",
    *b"INTERVAL            ",
    *b"# OF MAPS IN FILE   ",
    *b"MAPPING FUNCTION    ",
    *b"ELEVATION CUTOFF    ",
    *b"OBSERVABLES USED    ",
    *b"# OF STATIONS       ",
    *b"# OF SATELLITES     ",
    *b"SYS / #STA / #SAT   ",
    *b"BASE RADIUS         ",
    *b"MAP DIMENSION       ",
    *b"HGT1 / HGT2 / DHGT  ",
    *b"LAT1 / LAT2 / DLAT  ",
    *b"LON1 / LON2 / DLON  ",
    POWER,
    *b"START OF AUX DATA   ",
    *b"END OF AUX DATA     ",
    *b"END OF HEADER       ",
    *b"START OF TEC MAP    ",
    *b"END OF TEC MAP      ",
    *b"START OF RMS MAP    ",
    *b"END OF RMS MAP      ",
    *b"START OF HEIGHT MAP ",
    *b"END OF HEIGHT MAP   ",
    *b"EPOCH OF CURRENT MAP",
    OPENING,
    *b"END OF FILE         ",
];

// The places of labels in LABELS.
pub const VERSION: usize = 0;

pub const PROGRAM: usize = 1;

pub const DESCRIPTION: usize = 2;

pub const COMMENT: usize = 3;

pub const FIRST_EPOCH: usize = 4;

pub const LAST_EPOCH: usize = 5;

pub const INTERVAL: usize = 6;

pub const MAPS: usize = 7;

pub const MAPPING: usize = 8;

pub const CUTOFF: usize = 9;

pub const OBSERVABLES: usize = 10;

pub const STATIONS: usize = 11;

pub const SATELLITES: usize = 12;

pub const SYSTEM: usize = 13;

pub const RADIUS: usize = 14;

pub const DIMENSION: usize = 15;

pub const HEIGHTS: usize = 16;

pub const LATITUDES: usize = 17;

pub const LONGITUDES: usize = 18;

pub const EXPONENT: usize = 19;

pub const AUX_START: usize = 20;

pub const AUX_END: usize = 21;

pub const HEADER_END: usize = 22;

pub const TEC_START: usize = 23;

pub const TEC_END: usize = 24;

pub const RMS_START: usize = 25;

pub const RMS_END: usize = 26;

pub const HEIGHT_START: usize = 27;

pub const HEIGHT_END: usize = 28;

pub const EPOCH: usize = 29;

pub const BLOCK: usize = 30;

pub const FILE_END: usize = 31;

// The codes of the version record: the nine of 1.1 in 01's order, and then the two that 1.0 has besides.
pub const CODES: [[u8; 3]; 11] = [
    *b"BEN", *b"ENV", *b"ERS", *b"GEO", *b"GNS", *b"IRI", *b"MIX", *b"NNS", *b"TOP", *b"GPS",
    *b"GLO",
];

// The letters of SYS / #STA / #SAT, in 01's order.
pub const LETTERS: [u8; 7] = *b"GRECJIS";

// Whether the columns after the first a hold these bytes.
pub fn has(line: &[u8], a: usize, wanted: &[u8]) -> bool
    requires { a + length wanted.now ≤ 80 }
    ensures { result ≡ holds line.now a wanted.now }
{
    for (j, b) in wanted.iter().enumerate() {
        if fields::byte_at(line, a + j) != *b {
            return false;
        }
    }
    true
}

// Whether columns 61 to 80 hold a label.
pub fn has_label(line: &[u8], label: &[u8; 20]) -> bool
    requires { length label.now ≡ 20 }
    ensures { result ≡ holds line.now 60 label.now }
{
    has(line, 60, label)
}

// The same of a line that does not stop early: no branch per byte, so that vector code is made of it.
fn has_whole(line: &[u8], label: &[u8; 20]) -> bool
    requires { (80 ≤ length line.now) × (length label.now ≡ 20) }
    ensures { result ≡ holds line.now 60 label.now }
{
    let mut ok = true;
    for j in 0..20 {
        ok = ok & (line[60 + j] == label[j]);
    }
    ok
}

// The place of the label in columns 61 to 80, by trying one after the other. A label is copied out of the table to be compared: lent,
// it would keep the whole table on the stack, and a call took a fifth longer.
fn search(line: &[u8]) -> Option<usize>
    ensures { unwrap_or result 32 ≡ number_of line.now }
{
    let labels = LABELS;
    for k in 0..32 {
        let label = labels[k];
        if has_label(line, &label) {
            return Some(k);
        }
    }
    None
}

// A label that a file may have many of, known by its first letter; none says nothing.
fn frequent(line: &[u8]) -> Option<usize>
    ensures { IfSome result (λ k. k ≡ number_of line.now) }
{
    let first = fields::byte_at(line, 60);
    if first == b'L' {
        if line.len() < 80 {
            return None;
        }
        let opening = OPENING;
        if has_whole(line, &opening) {
            return Some(BLOCK);
        }
        return None;
    }
    if first == b'C' {
        let remark = REMARK;
        if has_label(line, &remark) {
            return Some(COMMENT);
        }
        return None;
    }
    if first == b'E' {
        let power = POWER;
        if has_label(line, &power) {
            return Some(EXPONENT);
        }
        return None;
    }
    None
}

// The place in LABELS of the label in columns 61 to 80, 32 where it is none of them, as the definition `number_of` counts. Those that a
// file may have many of are tried first.
pub fn label_of(line: &[u8]) -> usize
    ensures { result ≡ number_of line.now }
{
    if let Some(k) = frequent(line) {
        return k;
    }
    search(line).unwrap_or(32)
}

// The place of a system's letter in 01's list.
pub fn letter_place(b: u8) -> Option<usize>
    ensures place { found result ≡ place ℕ_discrete b letters }
    ensures below { IfSome result (λ i. i < 7) }
{
    match b {
        b'G' => Some(0),
        b'R' => Some(1),
        b'E' => Some(2),
        b'C' => Some(3),
        b'J' => Some(4),
        b'I' => Some(5),
        b'S' => Some(6),
        _ => None,
    }
}
