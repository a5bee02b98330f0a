// What is answered of a text: the header record with its texts, or the reason why it is refused.
#![tactic(auto)]

ghost use Rattle.std.specs.Prelude.{◌≡◌, [], ◌∷◌, Err};
ghost use Rattle.kit.specs.Range.{Within};
ghost use Rattle.read_outcome.specs.Outcome.{at_place, told_number, told_place, told_reason, no_texts, texts_in};
ghost use Rattle.read_outcome.specs.declared.Reason.TheVariants.{AreaTooShort};

use mapset::{Descriptions, Header, Texts};
use read_needs::Short;
use reading::Why;

// Why a text is refused: 01's reasons 1 to 10, each with line and column; and 11, with the area and the elements it needs.
#[derive(Clone, Copy)]
pub enum Reason {
    LongLine(u64, u64),
    BadByte(u64, u64),
    NotIonex(u64, u64),
    UnknownLabel(u64, u64),
    Misplaced(u64, u64),
    IllFormed(u64, u64),
    OutOfRange(u64, u64),
    Disagrees(u64, u64),
    Missing(u64, u64),
    EndsEarly(u64, u64),
    AreaTooShort(u64, u64),
}

// Only numbers that are none of 01's ten are told otherwise.
impl From<Why> for Reason {
    ghost from_gives = { λ why r. Within 1 10 why.number → told_reason r ≡ at_place why.number why.line why.column };

    fn from(why: Why) -> Reason {
        match why.number {
            1 => Reason::LongLine(why.line, why.column),
            2 => Reason::BadByte(why.line, why.column),
            3 => Reason::NotIonex(why.line, why.column),
            4 => Reason::UnknownLabel(why.line, why.column),
            5 => Reason::Misplaced(why.line, why.column),
            6 => Reason::IllFormed(why.line, why.column),
            7 => Reason::OutOfRange(why.line, why.column),
            8 => Reason::Disagrees(why.line, why.column),
            9 => Reason::Missing(why.line, why.column),
            _ => Reason::EndsEarly(why.line, why.column),
        }
    }
}

impl From<Short> for Reason {
    ghost from_gives = { λ short r. r ≡ AreaTooShort short.area short.need };

    fn from(short: Short) -> Reason {
        Reason::AreaTooShort(short.area, short.need)
    }
}

// The texts and the bytes of the DESCRIPTION lines are blanks on a refusal: they stand beside the answer in `Outcome`, which says so.
#[derive(Clone, Copy)]
pub struct ReadOut {
    pub answer: Result<Header, Reason>,
    pub texts: Texts,
    pub descriptions: Descriptions,
}

pub fn refused(reason: Reason) -> ReadOut
    ensures { (result.answer ≡ Err reason) × (texts_in result ≡ no_texts) }
{
    ReadOut {
        answer: Err(reason),
        texts: head::opening::blanks(),
        descriptions: Descriptions {
            bytes: [b' '; 1200],
        },
    }
}

// 01's number of a refusal, and line and column, or area and need: numbers, as C is told them.
#[derive(Clone, Copy)]
pub struct Refusal {
    pub number: u64,
    pub first: u64,
    pub second: u64,
}

fn placed(number: u64, first: u64, second: u64) -> Refusal
    ensures { (result.number ≡ number) × (result.first ≡ first) × (result.second ≡ second) }
{
    Refusal {
        number,
        first,
        second,
    }
}

pub fn refusal_of(reason: Reason) -> Refusal
    ensures { (result.number ≡ told_number (told_reason reason)) × (result.first ∷ result.second ∷ [] ≡ told_place (told_reason reason)) }
{
    match reason {
        Reason::LongLine(line, column) => placed(1, line, column),
        Reason::BadByte(line, column) => placed(2, line, column),
        Reason::NotIonex(line, column) => placed(3, line, column),
        Reason::UnknownLabel(line, column) => placed(4, line, column),
        Reason::Misplaced(line, column) => placed(5, line, column),
        Reason::IllFormed(line, column) => placed(6, line, column),
        Reason::OutOfRange(line, column) => placed(7, line, column),
        Reason::Disagrees(line, column) => placed(8, line, column),
        Reason::Missing(line, column) => placed(9, line, column),
        Reason::EndsEarly(line, column) => placed(10, line, column),
        Reason::AreaTooShort(area, need) => placed(11, area, need),
    }
}
