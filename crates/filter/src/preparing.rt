//! Preparing filters.

ghost use Rattle.std.specs.Prelude.{◌≡◌, IfOk};
ghost use Rattle.filter_text.specs.Spells.{view, views};
ghost use Rattle.filter.specs.Prepared.{prepared_filter, prepared_filters, prepared_view, prepared_views};

use crate::prepare_item::prepare_item;
use crate::prepared::Prepared;
use crate::prepared_filter::PreparedFilter;
use filter_text::Filter;
use schema::Conf;
use std::alloc::{AllocError, Global};

#[cycle(operands)]
fn prepare_operands(
    alloc: Global,
    conf: &Conf,
    operands: &[Filter],
) -> Result<Vec<PreparedFilter>, AllocError>
    ensures { IfOk result (λ ps. prepared_views ps.items ≡ prepared_filters conf.now.types (views operands.now)) }
{
    let mut prepared = Vec::with_capacity(alloc, operands.len())?;
    for operand in operands {
        prepared.push(prepare_filter(alloc, conf, operand)?)?;
    }
    Ok(prepared)
}

#[cycle(operands)]
fn prepare_filter(alloc: Global, conf: &Conf, filter: &Filter) -> Result<PreparedFilter, AllocError>
    ensures { IfOk result (λ p. prepared_view p ≡ prepared_filter conf.now.types (view filter.now)) }
{
    match filter {
        Filter::And(operands) => {
            let prepared = prepare_operands(alloc, conf, operands.as_slice())?;
            Ok(PreparedFilter::And(prepared))
        }
        Filter::Or(operands) => {
            let prepared = prepare_operands(alloc, conf, operands.as_slice())?;
            Ok(PreparedFilter::Or(prepared))
        }
        Filter::Not(operand) => {
            let prepared = prepare_filter(alloc, conf, operand)?;
            Ok(PreparedFilter::Not(Box::new(alloc, prepared)?))
        }
        Filter::Item(item) => Ok(PreparedFilter::Item(prepare_item(alloc, conf, item)?)),
    }
}

/// A filter made ready for testing entries under a configuration: of each item it is found once which types it is about and what it
/// asks of their values, or that it can't be told.
pub fn prepare(alloc: Global, filter: &Filter, conf: &Conf) -> Result<Prepared, AllocError>
    ensures { IfOk result (λ p. p ≡ record { conf = conf.now; filter = filter.now }) }
{
    conf.rules_are_kept();
    let root = prepare_filter(alloc, conf, filter)?;
    Ok(Prepared::of(filter, conf, root))
}
