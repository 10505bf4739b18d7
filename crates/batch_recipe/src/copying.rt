//! Copies of conditions.
ghost use Rattle.std.specs.Prelude.{◌≡◌, ◌++◌, [], ◌∷◌, map, IfOk};

use crate::chart::Chart;
use crate::condition::{Condition, Term};
use crate::node_condition::NodeCondition;
use batch_text::Name;
use indexmap::IndexSet;
use std::alloc::{AllocError, Global};

fn copy_name(alloc: Global, name: &Name) -> Result<Name, AllocError>
    ensures { IfOk result (λ copy. copy ≡ name.now) }
{
    match name.copy(alloc) {
        Ok(copy) => Ok(copy),
        Err(_) => Err(AllocError),
    }
}

fn copy_term(alloc: Global, term: &Term) -> Result<Term, AllocError>
    ensures { IfOk result (λ copy. copy ≡ term.now) }
{
    match term {
        Term::Named(name) => Ok(Term::Named(copy_name(alloc, name)?)),
        Term::Number(number) => Ok(Term::Number(*number)),
    }
}

fn copy_condition(alloc: Global, condition: &Condition) -> Result<Condition, AllocError>
    ensures { IfOk result (λ copy. copy ≡ condition.now) }
{
    let name = copy_name(alloc, &condition.name)?;
    let term = copy_term(alloc, &condition.term)?;
    Ok(Condition {
        name,
        op: condition.op,
        term,
    })
}

/// Adds a copy of the condition on these values.
pub fn push_condition(
    alloc: Global,
    conditions: &mut Vec<NodeCondition>,
    values: &IndexSet<Name>,
    condition: &Condition,
) -> Result<(), AllocError>
    ensures { IfOk result (λ _. conditions.new.items ≡ conditions.old.items ++ condition.now ∷ []) }
{
    let condition = copy_condition(alloc, condition)?;
    let node = NodeCondition::new(condition, values, conditions.last());
    conditions.push(node)?;
    Ok(())
}

/// Adds copies of the conditions of a selection's branches on these values.
pub fn push_conditions(
    alloc: Global,
    conditions: &mut Vec<NodeCondition>,
    values: &IndexSet<Name>,
    choices: &[(Condition, Chart)],
) -> Result<(), AllocError>
    ensures { IfOk result (λ _. conditions.new.items ≡ conditions.old.items ++ map (λ choice. choice.0) choices.now) }
{
    for choice in choices {
        push_condition(alloc, conditions, values, &choice.0)?;
    }
    Ok(())
}
