// A refusal in 01's and 02's numbers.
#![tactic(auto)]

ghost use Rattle.std.specs.Prelude.{◌≡◌};
ghost use Rattle.definitions.specs.Answers.{said};

use definitions::Refusal;

pub fn number_of(r: Refusal) -> u64
    ensures { result ≡ (said r).0 }
{
    match r {
        Refusal::RecordTooLong => 1,
        Refusal::LengthWrong => 2,
        Refusal::VersionUnknown => 3,
        Refusal::CountWrong { .. } => 4,
        Refusal::BoundWrong { .. } => 5,
        Refusal::LiteralWrong { .. } => 6,
        Refusal::CoefficientWrong { .. } => 7,
        Refusal::EndWrong { .. } => 8,
        Refusal::ListTooLong => 9,
        Refusal::ListTooShort { .. } => 10,
        Refusal::LentWrong { .. } => 11,
        Refusal::ByteWrong { .. } => 12,
        Refusal::ClauseFails { .. } => 13,
        Refusal::ValueOutside { .. } => 14,
        Refusal::VariableUnknown { .. } => 15,
        Refusal::VariableRepeated { .. } => 16,
        Refusal::ConstantWrong { .. } => 17,
        Refusal::TextWrong { .. } => 18,
        Refusal::VariableNotOnce { .. } => 19,
        Refusal::NoVariable { .. } => 22,
        Refusal::RepliesLeft { .. } => 23,
    }
}

pub fn detail_of(r: Refusal) -> u64
    ensures { result ≡ (said r).1 }
{
    match r {
        Refusal::RecordTooLong
        | Refusal::LengthWrong
        | Refusal::VersionUnknown
        | Refusal::ListTooLong => 0,
        Refusal::CountWrong { place }
        | Refusal::BoundWrong { place }
        | Refusal::LiteralWrong { place }
        | Refusal::CoefficientWrong { place }
        | Refusal::EndWrong { place }
        | Refusal::VariableUnknown { place }
        | Refusal::VariableRepeated { place }
        | Refusal::ConstantWrong { place }
        | Refusal::TextWrong { place } => place as u64,
        Refusal::ListTooShort { wanted } | Refusal::LentWrong { wanted } => wanted as u64,
        Refusal::ByteWrong { index } | Refusal::ValueOutside { index } => index as u64,
        Refusal::ClauseFails { number }
        | Refusal::VariableNotOnce { number }
        | Refusal::NoVariable { number } => number as u64,
        Refusal::RepliesLeft { count } => count as u64,
    }
}
