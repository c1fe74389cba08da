//! The items of a query, and the types of its columns.
ghost use Rattle.std.specs.Prelude.{◌≡◌, [], ◌∷◌, ◌++◌, map, flat_map, OnOk, IfOk};
ghost use Rattle.sb_syntax.specs.Tree.{sum_of};
ghost use Rattle.sb_check.specs.Answer.{Gives};
ghost use Rattle.sb_check.specs.InOrder.{walk_each};
ghost use Rattle.sb_check.specs.Scopes.{scope_of, typed_list, listed, of_integer};
ghost use Rattle.sb_check.specs.Walk as spec;
ghost use Rattle.sb_syntax.specs.Views as view;

use crate::expression::expression;
use crate::fault::{CheckFault, Reason};
use crate::scope::{Scope, Visible};
use crate::tree::{ExpressionList, Items};
use crate::types::{Types, same_type};
use sb_value::{ColumnDefinition, ColumnType};
use std::alloc::{AllocError, Global};

/// Expressions with their types.
#[derive(Drop)]
struct TypedList {
    trees: ExpressionList,
    types: Types,
}

/// The items of a query, with the types of its columns.
#[derive(Drop)]
pub(crate) struct Listed {
    pub(crate) items: Items,
    pub(crate) types: Types,
}

fn push_types(types: &mut Types, columns: &[ColumnDefinition]) -> Result<(), AllocError>
    ensures { OnOk result (types.new ≡ types.old ++ map (λ c. c.of) columns.now) }
{
    for column in columns {
        types.push(column.of)?;
    }
    Ok(())
}

/// The types of all columns of the sources.
fn all_types(alloc: Global, sources: &[Visible<'_>]) -> Result<Types, AllocError>
    ensures { IfOk result (λ types. types ≡ flat_map (λ v. map (λ c. c.of) v.columns) sources.now) }
{
    let mut types = Types::new(alloc);
    for source in sources {
        push_types(&mut types, source.columns)?;
    }
    Ok(types)
}

fn one_type(alloc: Global, of: ColumnType) -> Result<Types, AllocError>
    ensures { IfOk result (λ types. types ≡ of ∷ []) }
{
    let mut types = Types::new(alloc);
    types.push(of)?;
    Ok(types)
}

/// Each expression in order.
fn each(
    alloc: Global,
    expressions: &[sb_syntax::Expression],
    scope: &Scope<'_, '_>,
) -> Result<TypedList, CheckFault>
    ensures { Gives typed_list (walk_each (scope_of scope.now) (map view.expression expressions.now)) result }
{
    let mut trees = ExpressionList::with_capacity(alloc, expressions.len())?;
    let mut types = Types::new(alloc);
    for e in expressions {
        let one = expression(alloc, e, scope)?;
        trees.push(one.tree)?;
        types.push(one.of)?;
    }
    Ok(TypedList { trees, types })
}

/// The sum of one expression.
fn sum(alloc: Global, e: &sb_syntax::Expression, scope: &Scope<'_, '_>) -> Result<Items, CheckFault>
    ensures { Gives of_integer (spec.walk_items (scope_of scope.now) [] (sum_of (view.expression e.now))) result }
{
    let one = expression(alloc, e, scope)?;
    if !same_type(one.of, ColumnType::Int) {
        return Err(CheckFault::Refused(Reason::BadType));
    }
    Ok(Items::Sum(one.tree))
}

/// The items of a query, over its own sources.
pub(crate) fn items(
    alloc: Global,
    items: &sb_syntax::Items,
    sources: &[Visible<'_>],
    scope: &Scope<'_, '_>,
) -> Result<Listed, CheckFault>
    ensures { Gives listed (spec.walk_items (scope_of scope.now) sources.now (view.items items.now)) result }
{
    match items {
        sb_syntax::Items::All => Ok(Listed {
            items: Items::All,
            types: all_types(alloc, sources)?,
        }),
        sb_syntax::Items::Count => Ok(Listed {
            items: Items::Count,
            types: one_type(alloc, ColumnType::Int)?,
        }),
        sb_syntax::Items::Sum(e) => Ok(Listed {
            items: sum(alloc, e, scope)?,
            types: one_type(alloc, ColumnType::Int)?,
        }),
        sb_syntax::Items::Each(expressions) => {
            let list = each(alloc, expressions.as_slice(), scope)?;
            Ok(Listed {
                items: Items::Each(list.trees),
                types: list.types,
            })
        }
    }
}
