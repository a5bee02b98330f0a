// What the six areas need for a text, told of the text alone: the first scan, and nothing is lent.
#![tactic(auto)]

ghost use Rattle.read_outcome.specs.Measures.{Measures};

use read_needs::Elements;
use read_outcome::Reason;

// What each area needs; or the reason why the text is refused.
pub fn measure(text: &[u8]) -> Result<Elements, Reason>
    ensures { Measures text.now result }
{
    let mut lines = [b' '; 1200];
    let scan = read_judge::judge(text, &mut lines)?;
    let size = read_needs::size_of(scan.header);
    Ok(read_needs::needed(size, scan.some))
}
