// The refusals of every entry, and their numbers.
#![tactic(auto)]

ghost use Rattle.std.specs.Prelude.{◌≡◌};
ghost use Rattle.base_refusals.specs.Numbers.{number_of, outcome_no};

// The longest text that is read, joined or written.
pub const MAX_TEXT: usize = 65535;

// Why an entry refuses, in the order of the numbers.
#[derive(Clone, Copy, PartialEq, Eq)]
pub enum Refusal {
    TextTooLong,
    NotUtf8,
    NothingThere,
    NoClose,
    NoReading,
    TooManyClasses,
    TooManyKeys,
    JoinFull,
    CanonTooLong,
    NotWellFormed,
    EmptySet,
    BadTag,
    NotAnIndex,
    TableFull,
    AnotherVersion,
    TotalTooLarge,
    TooManyColumns,
    IndexTooLong,
    BadSetting,
    SharedValve,
}

// The number that a person is told.
pub fn number(r: Refusal) -> u8
    ensures { result ≡ number_of r }
{
    match r {
        Refusal::TextTooLong => 1,
        Refusal::NotUtf8 => 2,
        Refusal::NothingThere => 3,
        Refusal::NoClose => 4,
        Refusal::NoReading => 5,
        Refusal::TooManyClasses => 6,
        Refusal::TooManyKeys => 7,
        Refusal::JoinFull => 9,
        Refusal::CanonTooLong => 10,
        Refusal::NotWellFormed => 11,
        Refusal::EmptySet => 12,
        Refusal::BadTag => 13,
        Refusal::NotAnIndex => 14,
        Refusal::TableFull => 15,
        Refusal::AnotherVersion => 16,
        Refusal::TotalTooLarge => 17,
        Refusal::TooManyColumns => 18,
        Refusal::IndexTooLong => 19,
        Refusal::BadSetting => 20,
        Refusal::SharedValve => 21,
    }
}

// The same of an outcome, 0 where nothing is refused.
pub fn outcome_number(o: Result<(), Refusal>) -> u8
    ensures { result ≡ outcome_no o }
{
    match o {
        Ok(()) => 0,
        Err(r) => number(r),
    }
}
