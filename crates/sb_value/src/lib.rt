//! Values, rows, names, ids and changes: what every layer shares, specified as numbers, lists and plain records.
#![tactic(auto)]

mod change;
mod columns;
mod difference;
mod id;
mod laws;
mod literal;
mod lock;
mod name;
mod net;
mod refusal;
mod row;
mod rule_set;
mod tuples;
mod value;

pub use change::{Change, ChangeKind};
pub use columns::Columns;
pub use difference::{differing, same_row};
pub use id::{
    COLUMN_LIMIT, RULE_LIMIT, RuleId, SESSION_LIMIT, SessionId, TABLE_LIMIT, TENANT_LIMIT, TableId,
    TenantId, Who,
};
pub use laws::{
    last_change_triggers, literals_give_values_back, net_effects_compose, new_changes_trigger,
    precedes_is_closure, proper_lists_have_lives, sets_take_places, untouched_tuples_stay,
};
pub use literal::{LiteralError, print_value};
pub use lock::LockMode;
pub use name::{NAME_LIMIT, Name};
pub use net::{Net, Transition, Triggers};
pub use refusal::{Refusal, Verdict};
pub use row::{Row, RowList};
pub use rule_set::RuleSet;
pub use tuples::{OpenTuples, TupleIter, Tuples};
pub use value::{ColumnDefinition, ColumnType, TEXT_LIMIT, Text, Value};
