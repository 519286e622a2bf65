//! What a batch says, and how a journal keeps it.
ghost use Rattle.std.specs.Prelude.{◌≡◌, ◌≤◌, ◌+◌, ◌-◌, ◌++◌, vec_len, replicate, IfOk, OnOk};
ghost use Rattle.wm_page.specs.Batch.{entries};
ghost use Rattle.wm_page.specs.Fields.{eight_bytes};
ghost use Rattle.wm_journal.specs.Store.{count_after};
ghost use Rattle.wm_journal.specs.Writes.{numbers_of, images_of, journal_bytes};

use std::alloc::{AllocError, Global};
use wm_page::{PAGE_SIZE, PageWrite, read_number, write_number};

/// The page count after the pages are written, of which page 1 says it.
pub(crate) fn count_after(count: u64, pages: &[PageWrite]) -> u64
    ensures { result ≡ count_after count (entries pages.now) }
{
    for write in pages {
        if write.page == 1 {
            return read_number(write.bytes.as_slice(), 0);
        }
    }
    count
}

/// The bytes of a journal of these pages.
pub(crate) fn journal_bytes(alloc: Global, pages: &[PageWrite]) -> Result<Vec<u8>, AllocError>
    ensures { IfOk result (λ bytes. bytes.items ≡ journal_bytes (entries pages.now)) }
{
    let numbers = pages.len().div_ceil(512);
    let room = pages.len().saturating_add(numbers);
    let mut bytes = Vec::with_capacity(alloc, room.saturating_mul(PAGE_SIZE))?;
    put_numbers(&mut bytes, pages)?;
    put_zeros(&mut bytes, numbers * PAGE_SIZE)?;
    put_images(&mut bytes, pages)?;
    Ok(bytes)
}

// Puts zeros behind the bytes, a page at most, until they are so many.
fn put_zeros(bytes: &mut Vec<u8>, count: usize) -> Result<(), AllocError>
    requires short { vec_len bytes.old ≤ count }
    requires near { count ≤ vec_len bytes.old + 4096 }
    ensures { OnOk result (bytes.new.items ≡ bytes.old.items ++ replicate (count - vec_len bytes.old) 0) }
{
    let zeros = [0; PAGE_SIZE];
    bytes.extend_from_slice(&zeros[..count - bytes.len()])?;
    Ok(())
}

// Puts the numbers of the pages behind the bytes.
fn put_numbers(bytes: &mut Vec<u8>, pages: &[PageWrite]) -> Result<(), AllocError>
    ensures { OnOk result (bytes.new.items ≡ bytes.old.items ++ numbers_of (entries pages.now)) }
{
    for write in pages {
        bytes.extend_from_slice(&number_bytes(write.page))?;
    }
    Ok(())
}

// Puts the images of the pages behind the bytes.
fn put_images(bytes: &mut Vec<u8>, pages: &[PageWrite]) -> Result<(), AllocError>
    ensures { OnOk result (bytes.new.items ≡ bytes.old.items ++ images_of (entries pages.now)) }
{
    for write in pages {
        bytes.extend_from_slice(write.bytes.as_slice())?;
    }
    Ok(())
}

// The bytes of a number.
#[tactic(auto, unfolding(wm_page::specs::Fields::eight_bytes))]
pub(crate) fn number_bytes(number: u64) -> [u8; 8]
    ensures { result ≡ eight_bytes number }
{
    let mut bytes = [0; 8];
    write_number(&mut bytes, 0, number);
    bytes
}
