//! Tenants as scripts, written to files or to a writer; and tenants made again from the scripts of a folder.
#![tactic(auto)]

mod cell_dump;
mod cell_loader;
mod dump;
mod error;
mod folder;
mod host_dump;
mod host_loader;
mod line_player;
mod renewal;
mod script_files;
mod script_source;
mod tenant_saver;

pub use cell_dump::dump_all;
pub use cell_loader::loaded_cell;
pub use dump::{dump_tenant, text_of, undumped};
pub use error::{BackupError, push_number};
pub use folder::{Folder, FolderLock};
pub use host_dump::{NotedScript, ScriptNotes, noted_of};
pub use host_loader::load_folder;
pub use renewal::{RenewalFault, Unrenewed, renew_tenant};
pub use sb_dump::{DumpError, Script};
pub use script_files::ScriptFiles;
pub use script_source::FolderScripts;
pub use tenant_saver::TenantSaver;
