// A literal of an accepted record, read again without checks.
ghost use Rattle.laws.specs.Again.{There};
ghost use Rattle.reader.specs.Literals.{Rereads};

use super::Literal;
use definitions::Got;
use fields::{unchecked, unchecked_signed};

// Its kind, then its number, or its term count and its constant; the terms are passed over.
pub fn literal_again(rules: &[u8], at: usize) -> Got<Literal>
    requires { There rules.now at }
    ensures { Rereads rules.now at result }
{
    match unchecked(rules, at, 1) {
        0 => Got {
            value: Literal::Boolean(unchecked(rules, at + 1, 2)),
            next: at + 3,
        },
        1 => Got {
            value: Literal::Negated(unchecked(rules, at + 1, 2)),
            next: at + 3,
        },
        _ => {
            let place = at + 1;
            let end = place + 1 + 3 * unchecked(rules, place, 1) as usize;
            let constant = unchecked_signed(rules, end, 4);
            Got {
                value: Literal::Comparison { place, constant },
                next: end + 4,
            }
        }
    }
}
