//! What pages showed last, for tenants that are busy.
ghost use Rattle.std.specs.Prelude.{◌≡◌, None, Some, IfOk, IfSome, MatchOption, option_map, replicate, slice_set, ℕ};
ghost use Rattle.sb_status.specs.StatisticsCache.{AreAgain, IsAgain, IsCacheOf, IsUnseen, age_at, aged, kept_at};
ghost use Rattle.sb_status.specs.TenantViews.{IsViewAt};

use crate::view::{TenantNumbers, TenantView};
use std::alloc::{AllocError, Global};

/// The numbers of a tenant, and when they were taken, in seconds since the server began.
#[derive(Clone, Copy)]
struct TakenNumbers {
    numbers: TenantNumbers,
    taken: u64,
}

/// What a tenant was, and when.
#[derive(Drop)]
struct TakenView {
    place: u32,
    view: TenantView,
    taken: u64,
}

/// The numbers of all tenants, and what the tenant was that was looked at last.
pub struct StatisticsCache {
    numbers: Vec<Option<TakenNumbers>>,
    seen: Option<TakenView>,
}

impl Drop for StatisticsCache {
    fn drop(self) {
        let Self {
            numbers: _,
            seen: _,
        } = self;
    }
}

impl StatisticsCache {
    /// Nothing of so many tenants. Error: out of memory.
    pub fn new(alloc: Global, tenants: u32) -> Result<StatisticsCache, AllocError>
        ensures empty { IfOk result (λ cache. (cache.numbers.items ≡ replicate tenants None) × (cache.seen ≡ None)) }
        ensures own { IfOk result (λ cache. (first : ℕ) → IsCacheOf first cache) }
    {
        let mut numbers = Vec::new(alloc);
        for _place in 0..tenants {
            numbers.push(None)?;
        }
        Ok(StatisticsCache {
            numbers,
            seen: None,
        })
    }

    /// Keeps the numbers of the tenant at this place.
    pub fn keep(&mut self, place: u32, numbers: TenantNumbers, taken: u64)
        ensures kept { self.new.numbers.items ≡ slice_set self.old.numbers.items place (Some (record { numbers = numbers; taken = taken })) }
        ensures seen { self.new.seen ≡ self.old.seen }
        ensures own { (first : ℕ) → IsCacheOf first self.old → IsCacheOf first self.new }
    {
        if let Some(kept) = self.numbers.get_mut(place as usize) {
            *kept = Some(TakenNumbers { numbers, taken });
        }
    }

    /// The numbers of the tenant at this place as they were, with their age at this time.
    pub fn numbers(&self, place: u32, now: u64) -> Option<TenantNumbers>
        ensures { MatchOption result (kept_at self.now place ≡ None) (AreAgain self.now place now) }
    {
        match self.kept(place) {
            Some(kept) => {
                let mut numbers = kept.numbers;
                numbers.age = Some(age(kept.taken, now));
                Some(numbers)
            }
            None => None,
        }
    }

    /// What is kept of the tenant at this place.
    fn kept(&self, place: u32) -> Option<TakenNumbers>
        ensures { result ≡ kept_at self.now place }
    {
        self.numbers.get(place as usize).copied().flatten()
    }

    /// Keeps what the tenant at this place is.
    pub fn keep_view(&mut self, place: u32, view: TenantView, taken: u64)
        ensures seen { self.new.seen ≡ Some (record { place = place; view = view; taken = taken }) }
        ensures kept { self.new.numbers ≡ self.old.numbers }
        ensures own { (first : ℕ) → IsViewAt first place view → IsCacheOf first self.new }
    {
        self.seen = Some(TakenView { place, view, taken });
    }

    /// Notes how old it is at this time what the tenant was that was looked at last.
    pub fn tell_age(&mut self, now: u64)
        ensures seen { self.new.seen ≡ option_map (aged now) self.old.seen }
        ensures kept { self.new.numbers ≡ self.old.numbers }
        ensures own { (first : ℕ) → IsCacheOf first self.old → IsCacheOf first self.new }
    {
        if let Some(seen) = &mut self.seen {
            seen.view.numbers.age = Some(age(seen.taken, now));
        }
    }

    /// What the tenant at this place was, if it was looked at last.
    pub fn view(&self, place: u32) -> Option<&TenantView>
        ensures last { MatchOption result (IsUnseen self.now.seen place) (λ view. IsAgain self.now.seen place view.now) }
        ensures own { (first : ℕ) → IsCacheOf first self.now → IfSome result (λ view. IsViewAt first place view.now) }
    {
        match &self.seen {
            Some(seen) if seen.place == place => Some(&seen.view),
            _ => None,
        }
    }
}

/// How many seconds old something is at most that was taken in this second.
fn age(taken: u64, now: u64) -> u64
    ensures { result ≡ age_at taken now }
{
    now.saturating_sub(taken).saturating_add(1)
}
