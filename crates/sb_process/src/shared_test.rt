//! Tests that several rules share.
ghost use Rattle.std.specs.Prelude.{◌≡◌, ◌≤◌, List, IfSome};
ghost use Rattle.sb_value.specs.declared.id.Who.{Who as Asker};
ghost use Rattle.sb_value.specs.Laws.{AreLives};
ghost use Rattle.sb_rawlog.specs.Records.{Record};
ghost use Rattle.sb_rawlog.specs.Sessions.{changes_since};
ghost use Rattle.sb_process.specs.SharedTest.{AreSound, Decides, IsSound};

use sb_net::{NetOperations, net_operations};
use sb_rawlog::ChangeLog;
use sb_value::{TABLE_LIMIT, TableId, Who};

/// So many rules are found untriggered by walks of their own before one walk serves the others. With fewer, short
/// commits cost more.
const OWN_WALKS: u32 = 3;

/// The test of the rule on a table that was asked last: the time of its mark and that of its last test. Rules of the
/// table that share these share the changes to be walked. Once some of them were found untriggered, what the changes
/// come to is found once for all.
#[derive(Clone, Copy)]
pub(crate) struct SharedTest {
    pub(crate) since: u64,
    pub(crate) tested: u64,
    pub(crate) untriggered: u32,
    pub(crate) operations: Option<NetOperations>,
}

impl SharedTest {
    /// Of these times, where nothing is known so far.
    fn new(since: u64, tested: u64) -> SharedTest
        ensures since { result.since ≡ since }
        ensures tested { result.tested ≡ tested }
        ensures operations { result.operations ≡ None }
    {
        SharedTest {
            since,
            tested,
            untriggered: 0,
            operations: None,
        }
    }
}

/// A shared test for each table, so that rules which alternate between tables share, too.
#[derive(Drop)]
pub(crate) struct SharedTests {
    pub(crate) tests: [Option<SharedTest>; TABLE_LIMIT],
}

impl SharedTests {
    /// Of no rule so far.
    pub(crate) fn new() -> SharedTests
        ensures { (who : Asker) (records : List Record) → AreSound who records result }
    {
        SharedTests {
            tests: [None; TABLE_LIMIT],
        }
    }

    /// The test of a table's rules with these times. What is known of other times isn't of it.
    fn of(&self, table: TableId, since: u64, tested: u64) -> SharedTest
        ensures since { result.since ≡ since }
        ensures tested { result.tested ≡ tested }
        ensures sound { (who : Asker) (records : List Record) → AreSound who records self.now →
            IsSound who records table result }
    {
        let kept = self.tests[table.index()];
        match kept {
            Some(test) if test.since == since && test.tested == tested => test,
            _ => SharedTest::new(since, tested),
        }
    }

    /// Keeps a table's test in place of the one before.
    fn keep(&mut self, table: TableId, test: SharedTest)
        ensures { (who : Asker) (records : List Record) → AreSound who records self.old →
            IsSound who records table test → AreSound who records self.new }
    {
        self.tests[table.index()] = Some(test);
    }

    /// The operations that decide for each rule of that table and these times, once enough of them were found
    /// untriggered by walks of their own.
    pub(crate) fn operations<L: ChangeLog>(
        &mut self,
        log: &L,
        who: Who,
        table: TableId,
        since: u64,
        tested: u64,
    ) -> Option<NetOperations>
        requires times { since ≤ tested }
        requires lives { AreLives (changes_since who since (L.records log.now)) }
        requires sound { AreSound who (L.records log.now) self.old }
        ensures decide { IfSome result (Decides who (L.records log.now) table since tested) }
        ensures sound { AreSound who (L.records log.now) self.new }
    {
        let mut test = self.of(table, since, tested);
        if test.operations.is_none() && test.untriggered >= OWN_WALKS {
            test.operations = Some(net_operations(log, who, table, since, tested));
        }
        self.keep(table, test);
        test.operations
    }

    /// Counts a rule on a table that a walk of its own found untriggered. The walk of a triggered one ends at its first
    /// tuple, so it isn't worth another.
    pub(crate) fn count_untriggered(&mut self, table: TableId)
        ensures { (who : Asker) (records : List Record) → AreSound who records self.old →
            AreSound who records self.new }
    {
        let kept = self.tests[table.index()];
        if let Some(mut test) = kept {
            test.untriggered = test.untriggered.saturating_add(1);
            self.keep(table, test);
        }
    }
}
