//! What becomes of a class that is imported.

ghost use Rattle.std.specs.Prelude.{◌≡◌};
ghost use Rattle.cm_importing.specs.Outcomes.{outcome_with};

use cm_commands::Refusal;

/// What became of a class that an import asked for.
#[derive(Clone, Copy, Debug, PartialEq, Eq)]
pub enum Outcome {
    /// It is stored, under this number.
    Stored(u64),
    /// The loader has this very class already: its record has the same words.
    There,
    /// The loader has another class of this name, and keeps it.
    Changed,
    /// It is refused, for another reason than its name.
    Refused(Refusal),
}

/// What an answer says of a class, of which the loader has the very same or not.
pub(crate) fn outcome_of(answer: Result<u64, Refusal>, is_there: bool) -> Outcome
    ensures { result ≡ outcome_with answer is_there }
{
    match answer {
        Ok(number) => Outcome::Stored(number),
        Err(Refusal::ClassExists) if is_there => Outcome::There,
        Err(Refusal::ClassExists) => Outcome::Changed,
        Err(refusal) => Outcome::Refused(refusal),
    }
}
