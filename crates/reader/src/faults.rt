// 01's refusal for each fault: a number that is added is added here.
ghost use Rattle.std.specs.Prelude.{◌≡◌};
ghost use Rattle.definitions.specs.Answers.{said};
ghost use Rattle.reader.specs.Said.{number};

use super::{Fault, Why};
use definitions::Refusal;

impl From<Fault> for Refusal {
    ghost from_gives = { λ f r. said r ≡ (number f.why, f.place) };

    fn from(fault: Fault) -> Refusal {
        let place = fault.place;
        match fault.why {
            Why::Count => Refusal::CountWrong { place },
            Why::Bound => Refusal::BoundWrong { place },
            Why::Literal => Refusal::LiteralWrong { place },
            Why::Coefficient => Refusal::CoefficientWrong { place },
            Why::End => Refusal::EndWrong { place },
            Why::Unknown => Refusal::VariableUnknown { place },
            Why::Repeated => Refusal::VariableRepeated { place },
            Why::Constant => Refusal::ConstantWrong { place },
        }
    }
}
