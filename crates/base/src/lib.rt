// What no layer owns: the refusal that every answer can be, and why it is due; and as definitions and laws alone tests,
// values that may be missing, answers and lists.
#![tactic(auto)]

ghost use Rattle.std.specs.Prelude.{◌≡◌};
ghost use Rattle.base.specs.Reasons.{reason_number};
ghost use Rattle.base.specs.Refusals.{sole};

// Why a refusal is due, by name. What is answered is its number.
#[derive(Clone, Copy, Debug, PartialEq, Eq)]
pub enum Reason {
    // A chart without places or rows.
    Lacking,
    // Too many places or rows.
    Exceeding,
    // The alarm is no place.
    AlarmOutside,
    // A row leaves or leads to what is no place.
    Straying,
    // A row's "from" is lower than that of the row before it.
    Descending,
    // An operation whose code is not known, or is not of the sort that was asked for.
    UnknownCode,
    // An operand that its code does not have.
    WrongOperand,
    // A row in conflict with an earlier one.
    Conflicting,
    // A text without bytes.
    NoBytes,
    // A byte that does not fit, or an end within a record.
    BadByte,
    // A leading zero, a number above 4294967295, or a non-zero spare in the first record.
    BadNumber,
    // Records missing, or a byte after the last counted one.
    WrongEnd,
    // A length or an edition of the caller's that is not one of those stated.
    WrongCall,
    // A record of another shape than any of two such charts has.
    Misshapen,
    // A rule of records that is broken.
    BrokenRule,
}

impl From<Reason> for u32 {
    ghost from_gives = { λ reason number. number ≡ reason_number reason };

    fn from(reason: Reason) -> u32 {
        match reason {
            Reason::Lacking => 1,
            Reason::Exceeding => 2,
            Reason::AlarmOutside => 3,
            Reason::Straying => 4,
            Reason::Descending => 5,
            Reason::UnknownCode => 6,
            Reason::WrongOperand => 7,
            Reason::Conflicting => 8,
            Reason::NoBytes => 11,
            Reason::BadByte => 12,
            Reason::BadNumber => 13,
            Reason::WrongEnd => 14,
            Reason::WrongCall => 21,
            Reason::Misshapen => 31,
            Reason::BrokenRule => 32,
        }
    }
}

// "Each gives number, chart (0 old or sole, 1 new), position": one struct for code and definitions.
#[derive(Clone, Copy, Debug, PartialEq, Eq)]
pub struct Refusal {
    pub number: u32,
    pub chart: u32,
    pub position: usize,
}

impl Refusal {
    // The one that is due for this reason, in the chart with this number.
    pub fn new(reason: Reason, chart: u32, position: usize) -> Refusal
        ensures { result ≡ record { number = reason_number reason; chart = chart; position = position } }
    {
        Refusal {
            number: u32::from(reason),
            chart,
            position,
        }
    }

    // The one that is due for this reason; its chart is the old or sole one.
    pub fn sole(reason: Reason, position: usize) -> Refusal
        ensures { result ≡ sole (reason_number reason) position }
    {
        sole(u32::from(reason), position)
    }
}

// The refusal with this number and position; its chart is the old or sole one.
pub fn sole(number: u32, position: usize) -> Refusal
    ensures { result ≡ sole number position }
{
    Refusal {
        number,
        chart: 0,
        position,
    }
}
