//! What a status port shows: tenants, copied within the locks of their cells, pages of plain numbers, names and texts, and
//! the requests that ask for them. It makes no system call but to sleep where a cell is busy.
#![tactic(auto)]

mod activity;
mod counters;
mod credentials;
mod fragment;
mod graph;
mod graph_builder;
mod host;
mod laws;
mod layers;
mod lock_budget;
mod markup;
mod markup_texts;
mod node_box;
mod nodes;
mod page;
mod picture;
mod request;
mod response;
mod route;
mod rule_rows;
mod samples;
mod size;
mod statistics_cache;
mod tenant;
mod tenant_copy;
mod tenant_counts;
mod text;
mod view;

pub use credentials::Credentials;
pub use fragment::Fragment;
pub use graph::Graph;
pub use host::host_page;
pub use laws::{markup_stands_in_marks, texts_are_no_markup};
pub use lock_budget::LockBudget;
pub use markup::Markup;
pub use nodes::Nodes;
pub use request::{HEAD_LIMIT, Incoming, Request, read_request};
pub use response::{ContentType, NO_MEMORY, Status, respond};
pub use route::{Ended, Route, number, route_of};
pub use samples::metrics;
pub use statistics_cache::StatisticsCache;
pub use tenant::tenant_page;
pub use tenant_copy::view_at;
pub use tenant_counts::{Counting, SessionReading};
pub use text::Escaping;
pub use view::{
    Activity, Bucket, ColumnView, Histogram, HostNumbers, HostView, JournalNumbers, Refused,
    RenewalNumbers, Rollbacks, RuleView, RulesetView, RunningStepView, SessionState, SessionView,
    SlowView, TableView, TenantNumbers, TenantView, TriggersView, WorkerNumbers,
};
