//! Writes to a file's bytes, and changes of their length.
ghost use Rattle.std.specs.Prelude.{length, OnOk};
ghost use Rattle.sqlite_disk.specs.Disk.{Cut, Torn};
ghost use Rattle.gaz_quiet.specs.Written.{IsResized, IsWritten};

use std::alloc::AllocError;

/// Gives the file this length; what is new is zeros.
pub fn resize(file: &mut Vec<u8>, size: usize) -> Result<(), AllocError>
    ensures resized { OnOk result (IsResized size file.old.items file.new.items) }
    ensures cut { Cut size file.old.items file.new.items }
{
    file.resize(size, 0)
}

/// Writes the bytes at the offset; zeros fill what lies between the old end and them.
///
/// After want of memory only what lies behind the old end may have changed.
pub fn overwrite(file: &mut Vec<u8>, at: usize, bytes: &[u8]) -> Result<(), AllocError>
    ensures written { OnOk result (IsWritten at bytes.now file.old.items file.new.items) }
    ensures torn { Torn at (length bytes.now) file.old.items file.new.items }
{
    let end = at.checked_add(bytes.len()).ok_or(AllocError)?;
    if end > file.len() {
        resize(file, end)?;
    }
    file[at..end].copy_from_slice(bytes);
    Ok(())
}
