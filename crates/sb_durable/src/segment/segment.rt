//! A segment: a head and blocks. A block counts if its gate is open, and it is whole; a shut gate stands behind the last,
//! on the disk before anything is written behind it. The digest of a block is taken under the one before.
ghost use Rattle.std.specs.Prelude.{◌≡◌, ◌⊎◌, ◌^◌, ◌≤◌, ◌++◌, ◌↔◌, [], ◌∷◌, List, ℕ, slice_index, IfErr, OnOk, OnErr, IsErr, IsTrue};
ghost use Rattle.sqlite_disk.specs.Digest.{digest};
ghost use Rattle.sqlite_disk.specs.Disk.{Only};
ghost use Rattle.sb_durable.specs.SegmentBlocks.{IsContent, open_gate};
ghost use Rattle.sb_durable.specs.Head.{IsBeforeOrAfter, IsLeft, Stands};
ghost use Rattle.sb_durable.specs.Segment.{HasAll, Knows, IsNoRoom, IsSettled, IsSpent, device_of, head_of, end_of};

use crate::segment::beginning::Beginning;
use crate::segment::bytes::behind_gate;
use crate::segment::repair::{leave_gate, write_end};
use crate::segment::{Place, SegmentError};
use sqlite_disk::{Disk, digest_of};
use std::alloc::Global;

/// An open gate is written as this. Any byte but 0 is one, so no flipped bit shuts it.
const OPEN: u8 = 255;

/// No file gets as long as this, in bytes.
const MAX_LEN: usize = 1 << 62;

#[derive(Drop)]
pub struct Segment<D: Disk> {
    pub(crate) device: D,
    pub(crate) beginning: Beginning,
    /// The place of the gate behind the last block.
    pub(crate) end: Place,
    /// Nothing is behind that gate, and it is shut.
    pub(crate) is_settled: bool,
    pub(crate) is_spent: bool,
}

impl<D: Disk> Segment<D> {
    /// Adds a content. At `Ok` each crash leaves a file that has it. Error: NoRoom, if the disk has none, the device's,
    /// Memory, Full, or Spent behind a write that failed.
    pub fn append(&mut self, alloc: Global, content: &[u8]) -> Result<(), SegmentError>
        requires { IsContent content.now }
        ensures ok { OnOk result ((contents : List (List ℕ)) → HasAll D.Disk.seen D.Disk.may_leave self.old contents
            → HasAll D.Disk.seen D.Disk.may_leave self.new (contents ++ content.now ∷ [])) }

        // The new end binds the content and the end before.
        ensures end { OnOk result ((end_of self.new).chain ≡ digest (end_of self.old).chain content.now) }
        ensures head { head_of self.new ≡ head_of self.old }

        // No flipped bit shuts the gate that was opened.
        ensures gate { OnOk result ((contents : List (List ℕ)) → HasAll D.Disk.seen D.Disk.may_leave self.old contents
            → slice_index (D.Disk.seen (device_of self.new)) (end_of self.old).at ≡ open_gate) }

        // A crash at any moment of the call leaves what was there, or that and the whole content.
        ensures any_moment { (contents : List (List ℕ)) → HasAll D.Disk.seen D.Disk.may_leave self.old contents
            → (file : List ℕ) → D.Disk.may_leave (device_of self.new) file → IsBeforeOrAfter (head_of self.old) contents content.now file }

        ensures clean { IsTrue (D.Disk.is_clean (device_of self.new)) → IsTrue (D.Disk.is_clean (device_of self.old)) }

        // It has what it had, or the segment isn't used any more.
        ensures err { OnErr result (((contents : List (List ℕ)) → HasAll D.Disk.seen D.Disk.may_leave self.old contents
            → HasAll D.Disk.seen D.Disk.may_leave self.new contents) ⊎ IsSpent self.new) }
        ensures room { IfErr result (λ e. IsNoRoom e → IsSpent self.new → ⊥) }
        ensures spent { IsSpent self.old → IsErr result }
        ensures unsettled { IfErr result (λ e. e ≡ SegmentError.Unsettled → IsSettled self.old → ⊥) }
        ensures full { IfErr result (λ e. e ≡ SegmentError.Full → 2 ^ 62 ≤ (end_of self.old).at) }
    {
        if self.is_spent || !self.device.may_be_used() {
            return Err(SegmentError::Spent);
        }
        if !self.is_settled {
            return Err(SegmentError::Unsettled);
        }
        if self.end.at >= MAX_LEN {
            return Err(SegmentError::Full);
        }
        let own = digest_of(self.end.chain, content);
        let behind = behind_gate(alloc, own, content)?;
        self.is_spent = true;
        match write_end(&mut self.device, self.end.at + 1, &behind) {
            Ok(()) => {}
            Err(error) => {
                self.is_spent = !error.is_no_room();
                return Err(error);
            }
        }
        self.device.sync()?;
        self.device.write_at(self.end.at, &[OPEN])?;
        self.device.sync()?;
        self.end = Place {
            at: self.end.at + behind.len(),
            chain: own,
        };
        self.is_spent = false;
        Ok(())
    }

    /// Cuts off what a crash may have left behind the last block, so that the segment can be appended to. It may crash
    /// too.
    pub fn settle(&mut self) -> Result<(), SegmentError>
        ensures ok { OnOk result (IsTrue (D.Disk.is_clean (device_of self.new)) → (contents : List (List ℕ)) → Knows D.Disk.seen self.old contents
            → HasAll D.Disk.seen D.Disk.may_leave self.new contents) }
        ensures parts { (head_of self.new ≡ head_of self.old) × (end_of self.new ≡ end_of self.old) }

        // A crash at any moment of the call leaves what was there. After a restart, what is read is what is on the disk.
        ensures any_moment { IsTrue (D.Disk.is_clean (device_of self.new)) → Only (D.Disk.seen (device_of self.old)) (D.Disk.may_leave (device_of self.old))
            → (contents : List (List ℕ)) → Knows D.Disk.seen self.old contents → (file : List ℕ) → D.Disk.may_leave (device_of self.new) file
            → Stands (head_of self.old) contents file }

        // Where a crash left the file, a shut gate stays behind the last block.
        ensures left { IsTrue (D.Disk.is_clean (device_of self.new)) → Only (D.Disk.seen (device_of self.old)) (D.Disk.may_leave (device_of self.old))
            → (contents : List (List ℕ)) → Knows D.Disk.seen self.old contents → IsLeft (head_of self.old) contents (D.Disk.seen (device_of self.old))
            → (file : List ℕ) → D.Disk.may_leave (device_of self.new) file → IsLeft (head_of self.old) contents file }
        ensures damaged { IfErr result (λ e. e ≡ SegmentError.Damaged → IsTrue (D.Disk.is_clean (device_of self.new))
            → (contents : List (List ℕ)) → Knows D.Disk.seen self.old contents → ⊥) }

        ensures clean { IsTrue (D.Disk.is_clean (device_of self.new)) → IsTrue (D.Disk.is_clean (device_of self.old)) }
        ensures err { OnErr result ((self.new ≡ self.old) ⊎ IsSpent self.new) }
        ensures spent { IsSpent self.old → IsErr result }
    {
        if self.is_spent || !self.device.may_be_used() {
            return Err(SegmentError::Spent);
        }
        self.is_spent = true;
        let len = self.device.len()?;
        if self.end.at > len {
            return Err(SegmentError::Damaged);
        }
        leave_gate(&mut self.device, self.end.at, len)?;
        self.device.sync()?;
        self.is_settled = true;
        self.is_spent = false;
        Ok(())
    }

    /// Lets nothing be appended to it any more.
    pub fn give_up(&mut self)
        ensures has { (contents : List (List ℕ)) → HasAll D.Disk.seen D.Disk.may_leave self.old contents → HasAll D.Disk.seen D.Disk.may_leave self.new contents }
        ensures spent { IsSpent self.new }
        ensures head { head_of self.new ≡ head_of self.old }
        ensures disk { device_of self.new ≡ device_of self.old }
    {
        self.is_spent = true;
    }

    /// Gives the file back.
    pub fn close(self) -> D
        ensures { result ≡ device_of self }
    {
        let Segment { device, .. } = self;
        device
    }

    /// True if the segment can be appended to: nothing is behind the gate at its end.
    pub fn is_settled(&self) -> bool
        ensures { IsTrue result ↔ IsSettled self.now }
    {
        self.is_settled
    }

    /// True if a write or a sync has failed.
    pub fn is_spent(&self) -> bool
        ensures { IsTrue result ↔ IsSpent self.now }
    {
        self.is_spent
    }

    /// Its bytes, up to the gate behind its last block.
    pub fn size(&self) -> usize
        ensures { result ≡ (end_of self.now).at }
    {
        self.end.at
    }

    /// The digest that binds the head and all contents.
    pub fn end_digest(&self) -> u64
        ensures { result ≡ (end_of self.now).chain }
    {
        self.end.chain
    }

    /// The number of the segment, from its head.
    pub fn number(&self) -> u64
        ensures { result ≡ (head_of self.now).number }
    {
        self.beginning.number
    }

    /// The digest at the end of the segment before, from the head.
    pub fn before(&self) -> u64
        ensures { result ≡ (head_of self.now).before }
    {
        self.beginning.before
    }

    /// The settings in the head.
    pub fn settings(&self) -> &[u8]
        ensures { result.now ≡ (head_of self.now).settings }
    {
        &self.beginning.settings
    }
}
