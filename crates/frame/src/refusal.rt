// The numbers that are handed back where something is refused.
ghost use Rattle.std.specs.Prelude.{◌≡◌};
ghost use Rattle.frame.specs.Refusal.{number_of};

// Why something is refused, each reason with its number.
#[derive(Clone, Copy, Debug, PartialEq, Eq)]
pub enum Refusal {
    // There are no bytes, or they do not end in 0A.
    NotEnded = 1,
    // Ahead of the line end stands something other than a digit.
    NotDigits = 2,
    // There is no whole kind, or it is none of the nine.
    NoKind = 3,
    // The line is too short or too long for its kind.
    WrongLength = 4,
    // A field has a value that it may not have.
    WrongField = 5,
    // The buffer has no room for the line or the answer.
    NoRoom = 6,
    // A setting has a value that it may not have.
    WrongSetting = 7,
    // An argument of the user's action has a value that it may not have.
    WrongArgument = 8,
    // The record is not well formed under the settings.
    NotWellFormed = 9,
    // The two lines do not announce two calls of one group with two identifiers.
    NoChoice = 10,
}

impl Refusal {
    // The number of an answer: that of its refusal, 0 where nothing is refused.
    pub fn number_of<T>(answer: &Result<T, Refusal>) -> u8
        ensures { result ≡ number_of answer.now }
    {
        match answer {
            Ok(_) => 0,
            Err(refusal) => *refusal as u8,
        }
    }
}
