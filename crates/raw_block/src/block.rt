//! A block of memory: a row of places, each empty or with a value, over a raw pointer, and the
//! right to free it.

ghost use Rattle.std.specs.Prelude.{◌≡◌, ◌≤◌, ℕ, IfOk, take, ⊤};
ghost use Rattle.std.specs.Vec.Ownership.{FitsInBlock};
ghost use Rattle.std.specs.Mem.Slots.{slots_filled, slots_items, slots_len, slots_ptr};
ghost use Rattle.std.specs.Mem.Slots.Ownership.{Filled};
ghost use denote.RawPtr.{Ptr};
ghost use Rattle.raw_block.specs.Deeds.{deed_owns};
ghost use Rattle.raw_block.specs.Starts.{BeginsAt};

use core::slots::Slots;
use std::alloc::{AllocError, Allocator};
use std::marker::{Model, PhantomData};
use std::mem::{align_of, size_of};
use std::slice;

/// Where a row of places begins. It owns nothing.
pub struct Start<T> {
    ptr: *mut T,
}

impl<T> Clone for Start<T> {
    ghost is_clone = { λ x y. y ≡ x };

    ghost is_infallible = { λ _. ⊤ };

    fn clone(&self) -> Result<Start<T>, AllocError> {
        Ok(*self)
    }
}

impl<T> Copy for Start<T> {}

unsafe impl<T> Send for Start<T> {}

/// The right to give the block of `len` places at `at` back to `alloc`. It takes no space.
pub struct Deed<T, A: Allocator> {
    mark: PhantomData<*const (T, A)>,
    pub ghost at: { Ptr },
    pub ghost len: { ℕ },
    pub ghost alloc: { A },
}

impl<T, A: Allocator> Model for Deed<T, A> {
    ghost also_owns = { λ d. deed_owns T.row (A.dealloc_token d.alloc) d.at d.len };
}

unsafe impl<T, A: Allocator + Send> Send for Deed<T, A> {}

/// A block of `len` empty places, and where it begins. `_like` only shows that the type has a value.
/// An error if the allocator refuses it.
pub fn allocate<T, A: Allocator>(
    alloc: &A,
    len: usize,
    _like: &T,
) -> Result<(Slots<T>, Start<T>, Deed<T, A>), AllocError>
    requires { FitsInBlock T.row len }
    ensures { IfOk result (λ r. (slots_len r.0 ≡ len) × BeginsAt r.0 r.1 × (r.2.at ≡ slots_ptr r.0)
        × (r.2.len ≡ len) × (r.2.alloc ≡ alloc.now)) }
{
    match alloc.allocate(len * size_of::<T>(), align_of::<T>()) {
        Ok(block) => {
            let ptr = block as *mut T;
            let row = unsafe { Slots::from_raw_parts(ptr, len) };
            Ok((row, Start { ptr }, Deed { mark: PhantomData }))
        }
        Err(refused) => Err(refused),
    }
}

/// Frees a block, whatever is in its places.
pub fn free<T, A: Allocator>(alloc: &A, row: Slots<T>, deed: Deed<T, A>)
    requires { (deed.at ≡ slots_ptr row) × (deed.len ≡ slots_len row) × (deed.alloc ≡ alloc.now) }
{
    let (ptr, len) = unsafe { row.into_raw_parts() };
    let Deed { mark: _ } = deed;
    unsafe {
        alloc.deallocate(ptr as *mut u8, len * size_of::<T>(), align_of::<T>());
    }
}

/// A row of no places, which owns nothing. The pointer of `like` is never followed.
pub fn no_places<T>(like: &T) -> Slots<T>
    ensures { slots_len result ≡ 0 }
{
    let at = like as *const T;
    unsafe { Slots::from_raw_parts(at.cast_mut(), 0) }
}

/// Lets go of a row of no places.
pub fn forget<T>(row: Slots<T>)
    requires { slots_len row ≡ 0 }
{
    let _parts = unsafe { row.into_raw_parts() };
}

/// The values of the first `len` places of a row, as a slice.
#[inline(always)]
pub fn front<T>(row: &Slots<T>, start: Start<T>, len: usize) -> &[T]
    requires { BeginsAt row.now start × (len ≤ slots_len row.now)
        × Filled (slots_filled row.now) 0 len }
    ensures { result.now ≡ take len (slots_items row.now) }
{
    unsafe { slice::from_raw_parts(start.ptr, len) }
}
