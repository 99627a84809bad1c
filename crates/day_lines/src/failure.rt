// What a line is answered in place of its records.
ghost use Rattle.std.specs.Prelude.{◌≡◌};
ghost use Rattle.day_lines.specs.declared.failure.Failure.TheVariants.{Unread, Refused, Unwritten};

use reply::Refusal;
use std::alloc::AllocError;
use std::io;
use words::Unread;

// It cannot be read, its call is refused, or its answer cannot be written.
#[derive(Clone, Copy)]
pub enum Failure<'a> {
    Unread(Unread<'a>),
    Refused(Refusal),
    Unwritten,
}

impl<'a> From<Unread<'a>> for Failure<'a> {
    ghost from_gives = { λ why failure. failure ≡ Unread why };

    fn from(unread: Unread<'a>) -> Self {
        Failure::Unread(unread)
    }
}

impl From<AllocError> for Failure<'_> {
    fn from(error: AllocError) -> Self {
        Failure::Unread(Unread::from(error))
    }
}

impl From<Refusal> for Failure<'_> {
    ghost from_gives = { λ why failure. failure ≡ Refused why };

    fn from(refusal: Refusal) -> Self {
        Failure::Refused(refusal)
    }
}

impl From<io::Error> for Failure<'_> {
    ghost from_gives = { λ _ failure. failure ≡ Unwritten };

    fn from(_error: io::Error) -> Self {
        Failure::Unwritten
    }
}
