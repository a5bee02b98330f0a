// The version record.
#![tactic(auto)]

ghost use Rattle.std.specs.Prelude.{◌≡◌, ◌≤◌, ◌<◌, length, IfSome};
ghost use Rattle.kit.specs.Answer.{same};
ghost use Rattle.forms.specs.Columns.{columns};
ghost use Rattle.layout.specs.Text.{pad};
ghost use Rattle.layout.specs.Labels.{codes};
ghost use Rattle.reading.specs.Feed.{answer_of};
ghost use Rattle.reading.specs.Head.{place};
ghost use Rattle.reading.specs.Read.{versioned, version_of};
ghost use Rattle.labels.specs.Letters.{found};

use head_said::content;
use mapset::Version;
use reading::Fault;

// The place of columns 41 to 43 in the list of codes. By an index: `position` was tried, and that it is the first was not proved.
fn code_place(line: &[u8]) -> Option<usize>
    ensures place { found result ≡ place same (columns line.now 40 3) codes }
    ensures below { IfSome result (λ k. k < 11) }
{
    let code: [u8; 3] = fields::text(line, 40);
    for k in 0..11 {
        if labels::CODES[k] == code {
            return Some(k);
        }
    }
    None
}

// Version 1.0 or 1.1, type `I`, one of that version's codes, in this order.
fn judged(line: &[u8], version: i32) -> Result<Version, Fault>
    ensures { answer_of result ≡ versioned version (columns line.now 20 1) (columns line.now 40 3) }
{
    if !content::natural(version, 10, 11) {
        return Err(Fault {
            number: 3,
            column: 1,
        });
    }
    let kind = fields::byte_at(line, 20);
    if kind != b'I' {
        return Err(Fault {
            number: 3,
            column: 21,
        });
    }
    let unknown = Fault {
        number: 3,
        column: 41,
    };
    let code = code_place(line).ok_or(unknown)? as u32;
    let tenths = content::unsigned(version);
    if !mapset::takes_code(tenths, code) {
        return Err(unknown);
    }
    Ok(Version { tenths, kind, code })
}

// The first line that is not blank: the label, columns 1 to 20, then version, type and code.
pub fn version_of(line: &[u8]) -> Result<Version, Fault>
    requires { length line.now ≤ 80 }
    ensures { answer_of result ≡ version_of (pad line.now) }
{
    if labels::label_of(line) != labels::VERSION {
        return Err(Fault {
            number: 3,
            column: 61,
        });
    }
    let version = content::version_record(line)?;
    judged(line, version)
}
