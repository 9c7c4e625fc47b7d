// What a call gives beside the card and out: its code, and how many bytes it used of the command and of data, and wrote to out.
// Nothing is asked of the caller.
#![tactic(auto)]

ghost use Rattle.std.specs.Prelude.{◌≡◌};
ghost use Rattle.card_outcome.specs.Outcomes.{outcome_for};

use command::Refusal;

// What an accepted call used of the command and of data, and wrote to out, in bytes.
#[derive(Clone, Copy, Debug, PartialEq, Eq)]
pub struct Counts {
    pub used_command: usize,
    pub used_data: usize,
    pub written: usize,
}

// The code is 0 where the call is accepted.
#[derive(Clone, Copy, Debug, PartialEq, Eq)]
pub struct Outcome {
    pub code: u8,
    pub used_command: usize,
    pub used_data: usize,
    pub written: usize,
}

// The outcome of a call: of one that is refused the number of the refusal and three zeros, else 0 and the three counts.
impl From<Result<Counts, Refusal>> for Outcome {
    ghost from_gives = { λ r o. o ≡ outcome_for r };

    fn from(r: Result<Counts, Refusal>) -> Outcome {
        match r {
            Ok(counts) => Outcome {
                code: 0,
                used_command: counts.used_command,
                used_data: counts.used_data,
                written: counts.written,
            },
            Err(refusal) => Outcome {
                code: refusal.number(),
                used_command: 0,
                used_data: 0,
                written: 0,
            },
        }
    }
}
