// Why "Read memory" reads no table.
ghost use Rattle.std.specs.Prelude.{◌≡◌};
ghost use Rattle.memory_text.specs.Read.{error_report};
ghost use Rattle.memory_text.specs.declared.errors.ReadError.TheVariants.{BadToken, Refused};

use memory_tokens::Faulty;
use units::{Interval, Offset, Refusal};

#[derive(Clone, Copy, Debug, PartialEq, Eq)]
pub enum ReadError {
    // 8: a bad character, an @ without digits or an unfinished comment.
    BadToken(Offset),
    // 9: an @ address past the table, or a value that would be stored past it.
    PastTable(Offset),
    // 5: a value that is no field.
    TooWide(Offset),
    // 10: a value for a cell that was given before.
    GivenTwice(Offset),
    // 11: a cell that was not given.
    Missing(Interval),
    Refused(Refusal),
}

impl ReadError {
    // The documents' number for it.
    pub fn number(self) -> u32
        ensures { result ≡ (error_report self).number }
    {
        match self {
            ReadError::BadToken(_) => 8,
            ReadError::PastTable(_) => 9,
            ReadError::TooWide(_) => 5,
            ReadError::GivenTwice(_) => 10,
            ReadError::Missing(_) => 11,
            ReadError::Refused(refusal) => refusal.number(),
        }
    }

    // The offset that it names, or 0.
    pub fn offset(self) -> Offset
        ensures { result.0 ≡ (error_report self).offset }
    {
        match self {
            ReadError::BadToken(at) => at,
            ReadError::PastTable(at) => at,
            ReadError::TooWide(at) => at,
            ReadError::GivenTwice(at) => at,
            ReadError::Missing(_) => Offset(0),
            ReadError::Refused(_) => Offset(0),
        }
    }

    // The n that it names, or 0.
    pub fn n(self) -> Interval
        ensures { result.0 ≡ (error_report self).n }
    {
        match self {
            ReadError::Missing(n) => n,
            _ => Interval(0),
        }
    }
}

impl From<Refusal> for ReadError {
    ghost from_gives = { λ r e. e ≡ Refused r };

    fn from(r: Refusal) -> ReadError {
        ReadError::Refused(r)
    }
}

impl From<Faulty> for ReadError {
    ghost from_gives = { λ faulty e. e ≡ BadToken faulty.0 };

    fn from(faulty: Faulty) -> ReadError {
        ReadError::BadToken(faulty.0)
    }
}
