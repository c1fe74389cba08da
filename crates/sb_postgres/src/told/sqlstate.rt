//! SQLSTATEs: the five letters that tell a client what went wrong.
ghost use Rattle.std.specs.Prelude.{◌≡◌};
ghost use Rattle.sb_postgres.specs.SqlStates as spec;

use sb_value::Refusal;

/// What went wrong, by the names of PostgreSQL's documentation ('Error Codes').
#[derive(Clone, Copy, Debug, PartialEq, Eq)]
pub enum SqlState {
    SuccessfulCompletion,
    ProtocolViolation,
    ConnectionDoesNotExist,
    FeatureNotSupported,
    StringDataRightTruncation,
    CharacterNotInRepertoire,
    NumericValueOutOfRange,
    NullValueNotAllowed,
    InvalidTextRepresentation,
    InvalidBinaryRepresentation,
    ActiveSqlTransaction,
    NoActiveSqlTransaction,
    InvalidSqlStatementName,
    InvalidPassword,
    DependentObjectsStillExist,
    InvalidCursorName,
    InvalidCatalogName,
    SyntaxError,
    InvalidName,
    DuplicateColumn,
    AmbiguousColumn,
    UndefinedColumn,
    UndefinedObject,
    DuplicateObject,
    DatatypeMismatch,
    UndefinedTable,
    UndefinedParameter,
    DuplicateCursor,
    DuplicatePreparedStatement,
    DuplicateTable,
    InvalidObjectDefinition,
    OutOfMemory,
    TooManyConnections,
    ConfigurationLimitExceeded,
    ProgramLimitExceeded,
    StatementTooComplex,
    ObjectNotInPrerequisiteState,
    ObjectInUse,
    LockNotAvailable,
    AdminShutdown,
    RaiseException,
}

impl SqlState {
    /// Its five letters.
    pub fn code(self) -> &'static str
        ensures { result.now ≡ spec.code_of self }
    {
        match self {
            SqlState::SuccessfulCompletion => "00000",
            SqlState::ProtocolViolation => "08P01",
            SqlState::ConnectionDoesNotExist => "08003",
            SqlState::FeatureNotSupported => "0A000",
            SqlState::StringDataRightTruncation => "22001",
            SqlState::CharacterNotInRepertoire => "22021",
            SqlState::NumericValueOutOfRange => "22003",
            SqlState::NullValueNotAllowed => "22004",
            SqlState::InvalidTextRepresentation => "22P02",
            SqlState::InvalidBinaryRepresentation => "22P03",
            SqlState::ActiveSqlTransaction => "25001",
            SqlState::NoActiveSqlTransaction => "25P01",
            SqlState::InvalidSqlStatementName => "26000",
            SqlState::InvalidPassword => "28P01",
            SqlState::DependentObjectsStillExist => "2BP01",
            SqlState::InvalidCursorName => "34000",
            SqlState::InvalidCatalogName => "3D000",
            SqlState::SyntaxError => "42601",
            SqlState::InvalidName => "42602",
            SqlState::DuplicateColumn => "42701",
            SqlState::AmbiguousColumn => "42702",
            SqlState::UndefinedColumn => "42703",
            SqlState::UndefinedObject => "42704",
            SqlState::DuplicateObject => "42710",
            SqlState::DatatypeMismatch => "42804",
            SqlState::UndefinedTable => "42P01",
            SqlState::UndefinedParameter => "42P02",
            SqlState::DuplicateCursor => "42P03",
            SqlState::DuplicatePreparedStatement => "42P05",
            SqlState::DuplicateTable => "42P07",
            SqlState::InvalidObjectDefinition => "42P17",
            SqlState::OutOfMemory => "53200",
            SqlState::TooManyConnections => "53300",
            SqlState::ConfigurationLimitExceeded => "53400",
            SqlState::ProgramLimitExceeded => "54000",
            SqlState::StatementTooComplex => "54001",
            SqlState::ObjectNotInPrerequisiteState => "55000",
            SqlState::ObjectInUse => "55006",
            SqlState::LockNotAvailable => "55P03",
            SqlState::AdminShutdown => "57P01",
            SqlState::RaiseException => "P0001",
        }
    }

    /// That of a refusal. A statement that `defines` names columns; any other one looks them up.
    pub fn of_refusal(refusal: &Refusal, defines: bool) -> SqlState
        ensures { result ≡ spec.state_of defines refusal.now }
    {
        match refusal {
            Refusal::Syntax => SqlState::SyntaxError,
            Refusal::NoTable => SqlState::UndefinedTable,
            Refusal::TableExists => SqlState::DuplicateTable,
            Refusal::NoColumn => SqlState::UndefinedColumn,
            Refusal::BadType => SqlState::DatatypeMismatch,
            Refusal::Ambiguous if defines => SqlState::DuplicateColumn,
            Refusal::Ambiguous => SqlState::AmbiguousColumn,
            Refusal::WrongCount => SqlState::SyntaxError,
            Refusal::BadTransition => SqlState::UndefinedTable,
            Refusal::Overflow => SqlState::NumericValueOutOfRange,
            Refusal::TooBig => SqlState::ProgramLimitExceeded,
            Refusal::TooManyRows => SqlState::ProgramLimitExceeded,
            Refusal::Locked(_) => SqlState::LockNotAvailable,
            Refusal::InTransaction => SqlState::ActiveSqlTransaction,
            Refusal::NoTransaction => SqlState::NoActiveSqlTransaction,
            Refusal::Busy => SqlState::ObjectInUse,
            Refusal::NotOpen => SqlState::ConnectionDoesNotExist,
            Refusal::AlreadyOpen => SqlState::TooManyConnections,
            Refusal::NoRule => SqlState::UndefinedObject,
            Refusal::RuleExists => SqlState::DuplicateObject,
            Refusal::Cycle => SqlState::InvalidObjectDefinition,
            Refusal::TooManyRules => SqlState::ProgramLimitExceeded,
            Refusal::NoRuleset => SqlState::UndefinedObject,
            Refusal::RulesetExists => SqlState::DuplicateObject,
            Refusal::TooManyRulesets => SqlState::ProgramLimitExceeded,
            Refusal::TableInUse => SqlState::DependentObjectsStillExist,
            Refusal::TooManyTables => SqlState::ProgramLimitExceeded,
            Refusal::TrailFull => SqlState::ConfigurationLimitExceeded,
            Refusal::NoMemory => SqlState::OutOfMemory,
        }
    }
}
