//! Filters of prepared items.

ghost use Rattle.std.specs.Prelude.{◌≡◌};
ghost use Rattle.filter.specs.Truths.{opposite};
ghost use Rattle.filter.specs.Prepared.{filter_test, prepared_view};

use crate::prepared_item::PreparedItem;
use crate::truth::Truth;
use entries::Entry;

/// A filter whose items are prepared.
#[derive(Drop)]
pub enum PreparedFilter {
    And(Vec<PreparedFilter>),
    Or(Vec<PreparedFilter>),
    Not(Box<PreparedFilter>),
    Item(PreparedItem),
}

fn opposite(truth: Truth) -> Truth
    ensures { result ≡ opposite truth }
{
    match truth {
        Truth::True => Truth::False,
        Truth::Undefined => Truth::Undefined,
        Truth::False => Truth::True,
    }
}

impl PreparedFilter {
    pub(crate) fn truth_of(&self, entry: &Entry) -> Truth
        ensures { result ≡ filter_test entry.now.attrs (prepared_view self.now) }
    {
        match self {
            PreparedFilter::And(operands) => {
                let mut least = Truth::True;
                for operand in operands {
                    match operand.truth_of(entry) {
                        Truth::True => {}
                        Truth::Undefined => least = Truth::Undefined,
                        Truth::False => return Truth::False,
                    }
                }
                least
            }
            PreparedFilter::Or(operands) => {
                let mut greatest = Truth::False;
                for operand in operands {
                    match operand.truth_of(entry) {
                        Truth::True => return Truth::True,
                        Truth::Undefined => greatest = Truth::Undefined,
                        Truth::False => {}
                    }
                }
                greatest
            }
            PreparedFilter::Not(operand) => opposite(operand.truth_of(entry)),
            PreparedFilter::Item(item) => item.truth_of(entry),
        }
    }
}
