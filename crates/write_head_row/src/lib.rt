// The records of canonical text's header, each as a row of 80 bytes.
#![tactic(auto)]

ghost use Rattle.std.specs.Prelude.{◌≡◌, ◌<◌, ◌^◌, length};
ghost use Rattle.canonical.specs.Canon as canon;
ghost use Rattle.write_head_row.specs.HeadRows as said;

use mapset::{System, Texts, Version};

// The version, then `IONOSPHERE MAPS` in columns 21 to 35, then the code.
pub fn version_row(version: Version) -> [u8; 80]
    requires { (version.tenths < 2 ^ 31) × (version.code < 11) }
    ensures { result ≡ canon.version_row version }
{
    let code = version.code as usize;
    let text = labels::CODES[code];
    let mut row = write_row::blank_row(labels::VERSION);
    numerals::put_tenths(&mut row, 0, 8, version.tenths as i32);
    write_row::put_text(&mut row, 20, b"IONOSPHERE MAPS");
    write_row::put_text(&mut row, 40, &text);
    row
}

pub fn program_row(t: Texts) -> [u8; 80]
    ensures { result ≡ said.program_row t }
{
    let program = t.program;
    let agency = t.agency;
    let date = t.date;
    let mut row = write_row::blank_row(labels::PROGRAM);
    write_row::put_text(&mut row, 0, &program);
    write_row::put_text(&mut row, 20, &agency);
    write_row::put_text(&mut row, 40, &date);
    row
}

// A60.
fn sixty_row(k: usize, text: &[u8]) -> [u8; 80]
    requires { (k < 32) × (length text.now ≡ 60) }
    ensures { result ≡ said.sixty_row k text.now }
{
    let mut row = write_row::blank_row(k);
    write_row::put_text(&mut row, 0, text);
    row
}

// A line of the description.
pub fn description_row(line: &[u8]) -> [u8; 80]
    requires { length line.now ≡ 60 }
    ensures { result ≡ said.description_row line.now }
{
    sixty_row(labels::DESCRIPTION, line)
}

pub fn mapping_row(t: Texts) -> [u8; 80]
    ensures { result ≡ said.mapping_row t }
{
    let mapping = t.mapping;
    let mut row = write_row::blank_row(labels::MAPPING);
    write_row::put_text(&mut row, 2, &mapping);
    row
}

pub fn observables_row(t: Texts) -> [u8; 80]
    ensures { result ≡ said.observables_row t }
{
    let observables = t.observables;
    sixty_row(labels::OBSERVABLES, &observables)
}

// F8.1,52X, of tenths.
pub fn tenths_row(k: usize, n: u32) -> [u8; 80]
    requires { (k < 32) × (n < 2 ^ 31) }
    ensures { result ≡ said.tenths_row k n }
{
    let mut row = write_row::blank_row(k);
    numerals::put_tenths(&mut row, 0, 8, n as i32);
    row
}

// The j-th letter in column 6, then its counts.
pub fn system_row(j: usize, s: System) -> [u8; 80]
    requires { (j < 7) × (s.stations < 2 ^ 31) × (s.satellites < 2 ^ 31) }
    ensures { result ≡ said.system_row j s }
{
    let mut row = write_row::blank_row(labels::SYSTEM);
    row[5] = labels::LETTERS[j];
    numerals::put_int(&mut row, 6, 6, s.stations as i32);
    numerals::put_int(&mut row, 12, 6, s.satellites as i32);
    row
}
