//! Which list of which bucket a change is in.
ghost use Rattle.std.specs.Prelude.{◌≡◌, ◌<◌, ◌≤◌, length};
ghost use Rattle.sb_rawlog.specs.declared.node.Which.TheVariants.{Op, Tuple, Session};
ghost use Rattle.sb_rawlog.specs.Buckets.{group, mixed, kind_number, session_number, bucket, list_of};
ghost use Rattle.sb_rawlog.specs.Heads.{first_of};

use crate::heads::Heads;
use crate::key::Key;
use crate::node::Which;
use sb_value::{Change, ChangeKind, SessionId, TableId, TenantId};

/// The number of sessions. Each has a list of its own.
pub(crate) const SESSIONS: usize = 2_048;

/// The most buckets of changes by tuple: so many rows a tenant has at most.
const MOST_TUPLE_BUCKETS: usize = 65_536;

/// The number of buckets of changes by tuple, for so many by session, table and kind. A session changes far more
/// tuples than tables, and a walk along a tuple's changes meets those of other tuples in its bucket.
pub(crate) fn tuple_buckets(buckets: usize) -> usize
    requires { (0 < buckets) × (buckets ≤ 65536) }
    ensures { 0 < result }
{
    (buckets * 16).min(MOST_TUPLE_BUCKETS)
}

/// One number for a session's table.
#[tactic(auto, unfolding(crate::specs::Buckets::group))]
fn group(tenant: TenantId, session: SessionId, table: TableId) -> u64
    ensures { result ≡ group tenant session table }
{
    (tenant.number() as u64 * 8 + session.number() as u64) * 16 + table.number() as u64
}

/// A number below 2^32 that two pairs seldom share. The low bits of a product know only the low
/// bits of its factors, so the upper half is taken, where all of them meet. The factors are odd and
/// without pattern, so that numbers in a row are spread evenly.
#[tactic(auto, unfolding(crate::specs::Buckets::mixed))]
fn mixed(group: u64, number: u64) -> u64
    ensures { result ≡ mixed group number }
{
    let sum = group.wrapping_mul(0x9e37_79b9_7f4a_7c15);
    sum.wrapping_add(number.wrapping_mul(0xc2b2_ae3d_27d4_eb4f)) / 4_294_967_296
}

fn kind_number(kind: ChangeKind) -> u64
    ensures { result ≡ kind_number kind }
{
    match kind {
        ChangeKind::Inserted => 0,
        ChangeKind::Deleted => 1,
        ChangeKind::Updated => 2,
    }
}

#[tactic(auto, unfolding(crate::specs::Buckets::session_number))]
fn session_number(tenant: TenantId, session: SessionId) -> usize
    ensures value { result ≡ session_number tenant session }
    ensures within { result < 2048 }
{
    (tenant.index() * 8 + session.index()) % SESSIONS
}

pub(crate) fn op_bucket(change: &Change, count: usize) -> usize
    requires { 0 < count }
    ensures { result ≡ bucket count count Op change.now }
{
    let group = group(change.tenant, change.session, change.table);
    (mixed(group, kind_number(change.kind)) % count as u64) as usize
}

pub(crate) fn tuple_bucket(change: &Change, count: usize) -> usize
    requires { 0 < count }
    ensures { result ≡ bucket count count Tuple change.now }
{
    let group = group(change.tenant, change.session, change.table);
    (mixed(group, change.tuple) % count as u64) as usize
}

pub(crate) fn session_bucket(change: &Change) -> usize
    ensures value { result ≡ session_number change.now.tenant change.now.session }
    ensures within { result < 2048 }
{
    session_number(change.tenant, change.session)
}

impl Key {
    /// The list of a log in places that has what fits the key.
    pub(crate) fn list(&self) -> Which
        ensures { result ≡ list_of self.now }
    {
        match self {
            Key::Op(_, _, _) => Which::Op,
            Key::Tuple(_, _, _) => Which::Tuple,
            Key::Session(_) => Which::Session,
        }
    }
}

impl Heads {
    /// The head of the list of the key's bucket.
    #[inline(always)]
    pub(crate) fn first(&self, key: &Key) -> Option<usize>
        requires ops { 0 < length self.now.ops.items }
        requires tuples { 0 < length self.now.tuples.items }
        requires sessions { length self.now.sessions.items ≡ 2048 }
        ensures { result ≡ first_of self.now key.now }
    {
        match key {
            Key::Op(who, table, kind) => {
                let mixed = mixed(group(who.tenant, who.session, *table), kind_number(*kind));
                self.ops[(mixed % self.ops.len() as u64) as usize]
            }
            Key::Tuple(who, table, tuple) => {
                let mixed = mixed(group(who.tenant, who.session, *table), *tuple);
                self.tuples[(mixed % self.tuples.len() as u64) as usize]
            }
            Key::Session(who) => self.sessions[session_number(who.tenant, who.session)],
        }
    }
}
