//! A restart needs some segments of a journal, and the older ones no more.
ghost use Rattle.std.specs.Prelude.{◌≡◌, ◌+◌, ◌<◌, ℕ, List, ◌++◌, ◌∷◌, [], length, IfOk, IsTrue, None};
ghost use Rattle.sb_durable.specs.Records.{Entry};
ghost use Rattle.sb_durable.specs.SegmentNeeds.{AreNeeds, NobodyNeedsBelow, is_below, need_of, older_of, onward, tenants_of};
ghost use Rattle.sb_durable.specs.VolumeRecords.{HasVolume};

use std::alloc::{AllocError, Global};

/// For each tenant the oldest segment that a restart needs of it: that of its newest whole volume, or that of its first
/// record where it has no whole volume.
#[derive(Drop)]
pub struct SegmentNeeds {
    /// By tenant. None: it has no record.
    oldest: Vec<Option<u64>>,
}

impl SegmentNeeds {
    /// Of so many tenants, of which none has a record. Error: out of memory.
    pub fn new(alloc: Global, tenants: u32) -> Result<SegmentNeeds, AllocError>
        ensures tenants { IfOk result (λ needs. tenants_of needs ≡ tenants) }
        ensures none { IfOk result (λ needs. (t : ℕ) → need_of needs t ≡ None) }
    {
        let mut oldest = Vec::new(alloc);
        for _tenant in 0..tenants {
            oldest.push(None)?;
        }
        Ok(SegmentNeeds { oldest })
    }

    /// Notes one record more of a tenant, in the newest segment, which has this number.
    pub fn note_record(&mut self, tenant: u32, segment: u64)
        ensures tenants { tenants_of self.new ≡ tenants_of self.old }
        ensures needs { (first : ℕ) (row : List (List Entry)) (newest : List Entry) (one : Entry) → one.tenant ≡ tenant → segment ≡ first + length row
            → AreNeeds self.old first (row ++ newest ∷ []) → AreNeeds self.new first (row ++ (newest ++ one ∷ []) ∷ []) }
    {
        if let Some(need) = self.oldest.get_mut(tenant as usize) {
            if need.is_none() {
                *need = Some(segment);
            }
        }
    }

    /// Notes that the tenant has a whole volume, which begins in this segment.
    pub fn note_volume(&mut self, tenant: u32, begins: u64)
        ensures tenants { tenants_of self.new ≡ tenants_of self.old }
        ensures needs { (first : ℕ) (row : List (List Entry)) → begins < first + length row → HasVolume tenant (onward first begins row)
            → AreNeeds self.old first row → AreNeeds self.new first row }
    {
        if let Some(need) = self.oldest.get_mut(tenant as usize) {
            *need = Some(begins);
        }
    }

    /// The oldest segment that a tenant needs. None: no tenant has a record.
    pub fn oldest(&self) -> Option<u64>
        ensures { (first : ℕ) (row : List (List Entry)) → AreNeeds self.now first row → NobodyNeedsBelow (tenants_of self.now) first row result }
    {
        let mut oldest = None;
        for need in &self.oldest {
            oldest = older_of(oldest, *need);
        }
        oldest
    }

    /// True if a tenant needs a segment below this one.
    pub fn needs_below(&self, tenant: u32, segment: u64) -> bool
        ensures { result ≡ is_below segment (need_of self.now tenant) }
    {
        match self.oldest.get(tenant as usize) {
            Some(Some(need)) => *need < segment,
            _ => false,
        }
    }
}

/// The lower one of two numbers, where there are two.
fn older_of(one: Option<u64>, other: Option<u64>) -> Option<u64>
    ensures { result ≡ older_of one other }
{
    match (one, other) {
        (Some(one), Some(other)) => Some(one.min(other)),
        (Some(one), None) => Some(one),
        (None, other) => other,
    }
}
