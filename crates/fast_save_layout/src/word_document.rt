// The new `WordDocument`.
ghost use Rattle.std.specs.Prelude.{◌≡◌, ◌≤◌, ◌++◌, length, drop, IfOk};
ghost use Rattle.cfb_layout.specs.Sectors.{filled};
ghost use Rattle.fib_form.specs.Fib.{form_size};
ghost use Rattle.fib_form.specs.FibBytes.{written_fib};

use doc_bits::{Bytes, Memory, push_zeros};
use fib_form::Fib;
use std::alloc::Global;

/// The most bytes of a FIB.
const MAX_FIB_LEN: usize = 1024;

/// A `WordDocument` with another FIB of its form, zeros up to a byte, and what is added there.
pub(crate) fn renewed_wd(
    alloc: Global,
    old: &[u8],
    fib: &[u8],
    base: u32,
    added: &[u8],
) -> Result<Bytes, Memory>
    requires { length fib.now ≤ length old.now }
    ensures { IfOk result (λ wd. wd
        ≡ filled base 0 (fib.now ++ drop (length fib.now) old.now) ++ added.now) }
{
    let mut wd = Bytes::from_slice(alloc, fib)?;
    wd.push_all(&old[fib.len()..])?;
    push_zeros(&mut wd, (base as usize).saturating_sub(old.len()))?;
    wd.push_all(added)?;
    Ok(wd)
}

/// The bytes of a FIB.
pub(crate) fn fib_bytes(alloc: Global, fib: &Fib) -> Result<Bytes, Memory>
    ensures bytes { IfOk result (λ bytes. bytes ≡ written_fib fib.now) }
    ensures len { IfOk result (λ bytes. length bytes ≡ form_size fib.now.form) }
{
    let mut front = [0u8; MAX_FIB_LEN];
    fib.write(&mut front);
    let bytes = Bytes::from_slice(alloc, &front[..fib.size() as usize])?;
    Ok(bytes)
}
