//! The text of a query as a client of PostgreSQL sends it, cut into statements.
mod actions;
mod bytes;
mod draft;
mod error;
mod kind;
mod openings;
mod parameter;
mod piece;
mod reading;
mod scan;
mod statement;
mod statements;
mod template;

pub use draft::LINE_LIMIT;
pub use error::{Fault, QueryError, Refusal};
pub use kind::{StatementKind, behind_first_word, first_word, kind_of};
pub use openings::{OPENINGS, Opening, Reach};
pub use parameter::parameters_of;
pub use piece::PieceKind;
pub use statement::Statement;
pub use statements::Statements;
pub use template::{FillError, fill};
