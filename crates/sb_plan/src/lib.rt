//! What a query means, and what is found out of it before its combinations are walked: what it costs, how far it looks
//! outward, which rows can be looked up, what is known of its subqueries, and what of it overflows nowhere.
#![tactic(auto)]

mod batch;
mod calculation;
mod compile;
mod correlation;
mod cost;
mod early;
mod equality;
mod error_free;
mod expression;
mod flags;
mod gather;
mod index;
mod join;
mod laws;
mod lent_row;
mod listed;
mod memo;
mod names;
mod ones;
mod outward;
mod partial_test;
mod parts;
mod reach;
mod scope;
mod sides;
mod source_rows;
mod sources;
mod truth;
mod value_ref;
mod value_set;
mod way;
mod work;

pub use batch::Batch;
pub use calculation::is_free_of_arithmetic;
pub use correlation::is_uncorrelated;
pub use cost::{combination_count, operand_cost, query_cost, subquery_cost};
pub use early::is_false_already;
pub use equality::Equality;
pub use error_free::{is_error_free, is_query_error_free};
pub use expression::value;
pub use flags::row_flags;
pub use gather::{BATCHED, Gathered, GatheredColumns};
pub use index::{Index, IndexEntry};
pub use join::{Join, LOOKED_UP};
pub use laws::{
    equal_columns_suffice, error_free_never_overflow, free_of_arithmetic_never_overflow,
    indexes_suffice, known_values_suffice,
};
pub use lent_row::LentRow;
pub use memo::Memo;
pub use ones::selection_of;
pub use outward::Outward;
pub use partial_test::PartialTest;
pub use parts::Parts;
pub use scope::{Scope, column};
pub use source_rows::SourceRows;
pub use sources::Sources;
pub use truth::is_true;
pub use value_ref::ValueRef;
pub use value_set::ValueSet;
pub use way::{AccessPath, choose_access_path};
pub use work::{
    query_work, repeated_operand_work, repeated_work, single_operand_work, single_work,
};
