//! A block of raw memory as a row of cells, each empty or with a value. Only this file touches pointers.
ghost use Rattle.std.specs.Prelude.{◌≡◌, ℕ, ◌<◌, List, Option, Some, None, length, replicate, get_or, slice_set, IfOk, ⊤};
ghost use Rattle.std.specs.Vec.Ownership.{FitsInBlock};
ghost use base.Fml.{ftrue};
ghost use denote.RawPtr.{Ptr};
ghost use Rattle.sb_arena.specs.Places.{IsFilled};
ghost use Rattle.sb_arena.specs.Ownership.{row_at, row_lent_at, token_of};

use std::alloc::{AllocError, Allocator};
use std::marker::{Model, PhantomData};
use std::mem::{align_of, size_of};

/// The start of a block. It owns nothing, so it is copied freely.
pub(crate) struct Start<T> {
    ptr: *mut T,
}

impl<T> Clone for Start<T> {
    ghost is_clone = { λ x y. y ≡ x };

    ghost is_infallible = { λ _. ⊤ };

    fn clone(&self) -> Result<Start<T>, AllocError> {
        Ok(*self)
    }
}

impl<T> Copy for Start<T> {}

// An address may go to any thread; what lies there is the cells' to send or lend.
unsafe impl<T> Send for Start<T> {}

unsafe impl<T> Sync for Start<T> {}

/// The owner of a block's cells. It takes no bytes, and isn't `Drop`: nothing that a cell holds is forgotten.
pub(crate) struct Cells<T> {
    mark: PhantomData<*const T>,
    ghost at: { Ptr },
    ghost slots: { List (Option T) },
}

impl<T> Model for Cells<T> {
    ghost also_owns = { λ c. row_at T.row c.at c.slots };

    ghost also_shares = { λ c _ κ. row_lent_at T.row c.at c.slots κ };
}

// They go to another thread with the values in them, and lend these alone.
unsafe impl<T: Send> Send for Cells<T> {}

unsafe impl<T: Sync> Sync for Cells<T> {}

/// The right to give a block back to its allocator. It takes no bytes, and isn't `Drop`: no block is forgotten.
pub(crate) struct Deed<T, A: Allocator> {
    mark: PhantomData<*const (T, A)>,
    ghost at: { Ptr },
    ghost len: { ℕ },
    ghost alloc: { A },
}

impl<T, A: Allocator> Model for Deed<T, A> {
    ghost also_owns = { λ d. token_of T.row (A.dealloc_token d.alloc) d.at d.len };

    ghost also_shares = { λ _ _ _. ftrue };
}

// A block is given back by any thread to which its allocator may go, and a `&` to the right gives nothing.
unsafe impl<T, A: Allocator + Send> Send for Deed<T, A> {}

unsafe impl<T, A: Allocator> Sync for Deed<T, A> {}

/// A block of empty cells.
pub(crate) fn allocate<T, A: Allocator>(
    alloc: &A,
    len: usize,
) -> Result<(Start<T>, Cells<T>, Deed<T, A>), AllocError>
    requires { FitsInBlock T.row len }
    ensures cells { IfOk result (λ r. (r.1.at ≡ r.0.ptr) × (r.1.slots ≡ replicate len None)) }
    ensures deed { IfOk result (λ r. (r.2.at ≡ r.0.ptr) × (r.2.len ≡ len) × (r.2.alloc ≡ alloc.now)) }
{
    match alloc.allocate(len * size_of::<T>(), align_of::<T>()) {
        Ok(block) => {
            let start = Start {
                ptr: block as *mut T,
            };
            Ok((
                start,
                Cells { mark: PhantomData },
                Deed { mark: PhantomData },
            ))
        }
        Err(refused) => Err(refused),
    }
}

/// Gives a block back, whose cells are all empty.
pub(crate) fn free<T, A: Allocator>(
    alloc: &A,
    start: Start<T>,
    len: usize,
    cells: Cells<T>,
    deed: Deed<T, A>,
)
    requires cells { (cells.at ≡ start.ptr) × (cells.slots ≡ replicate len None) }
    requires deed { (deed.at ≡ start.ptr) × (deed.len ≡ len) × (deed.alloc ≡ alloc.now) }
{
    let Cells { mark: _ } = cells;
    let Deed { mark: _ } = deed;
    // The deed is of this block and this allocator, and no cell has a value.
    unsafe {
        alloc.deallocate(start.ptr as *mut u8, len * size_of::<T>(), align_of::<T>());
    }
}

impl<T> Cells<T> {
    /// Puts a value into an empty cell.
    pub(crate) fn write(&mut self, start: Start<T>, index: usize, value: T)
        requires start { start.ptr ≡ self.old.at }
        requires empty { (index < length self.old.slots) × (get_or self.old.slots index None ≡ None) }
        ensures { (self.new.at ≡ self.old.at) × (self.new.slots ≡ slice_set self.old.slots index (Some value)) }
    {
        // The cell lies in the block, and nothing is overwritten.
        unsafe { start.ptr.add(index).write(value) }
    }

    /// Moves a value out, which leaves its cell empty.
    pub(crate) fn read(&mut self, start: Start<T>, index: usize) -> T
        requires { (start.ptr ≡ self.old.at) × IsFilled self.old.slots index }
        ensures value { get_or self.old.slots index None ≡ Some result }
        ensures slots { (self.new.at ≡ self.old.at) × (self.new.slots ≡ slice_set self.old.slots index None) }
    {
        // The cell has a value, and counts as empty from now on, so the value is there once.
        unsafe { start.ptr.add(index).read() }
    }

    /// Lends a value.
    pub(crate) fn get(&self, start: Start<T>, index: usize) -> &T
        requires { (start.ptr ≡ self.now.at) × IsFilled self.now.slots index }
        ensures { get_or self.now.slots index None ≡ Some result.now }
    {
        // The cell has a value, and a `&` to the cells keeps it there.
        unsafe { &*start.ptr.add(index) }
    }
}
