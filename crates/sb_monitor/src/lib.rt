//! What an operator sees of a server: its log, its first line, and the pages of its status port. And what is done for its
//! tenants behind their backs: their trails are renewed.
#![tactic(auto)]

mod activity;
mod bell;
mod crowd;
mod event_log;
mod housekeeping;
mod http_connection;
mod http_outcome;
mod journal_board;
mod journal_hook;
mod listener;
mod memory;
mod page_access;
mod pages;
mod refusal_names;
mod renewal_board;
mod renewal_notes;
mod room_reading;
mod running_steps;
mod sender;
mod server_control;
mod session_board;
mod status_port;
mod stop_switch;
mod supervisor;
mod target;
mod tenant_renewals;
mod tenant_script;

pub use event_log::EventLog;
pub use housekeeping::{Chore, Housekeeping, IdleRenewals, LongStop, NoChore};
pub use journal_board::JournalBoard;
pub use journal_hook::{JournalHook, SyncedChore};
pub use listener::{ListenError, is_closed, listen};
pub use memory::memory_file;
pub use pages::Pages;
pub use renewal_board::RenewalBoard;
pub use running_steps::RunningSteps;
pub use server_control::{ServerControl, ServerControls, ServerSize};
pub use session_board::SessionBoard;
pub use status_port::{SideTask, StatusPort, serve_beside, work_beside};
pub use stop_switch::StopSwitch;
pub use supervisor::Supervisor;
pub use tenant_renewals::{RenewalLimits, TenantRenewals};
