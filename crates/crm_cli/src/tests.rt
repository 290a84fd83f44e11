// What only a call can show: devices that fail, and what was read and written by then; links; limits.
mod devices;
mod limits;
mod links;

use crm_core::Status;
use crm_outside::{Bytes, FileEntry, FileList, MemShelf, MemSink, Numbers, Text};
use crm_run::run;
use std::alloc::{AllocError, Global};
use std::test::Fail;

// The list of one number.
fn only(alloc: Global, number: u32) -> Result<Numbers, AllocError> {
    let mut numbers = Numbers::new(alloc);
    numbers.push(number)?;
    Ok(numbers)
}

fn push_file(
    alloc: Global,
    files: &mut FileList,
    name: &str,
    text: &str,
) -> Result<(), AllocError> {
    files.push(FileEntry {
        name: Text::from_str(alloc, name)?,
        bytes: Bytes::from_vec(text.as_bytes().to_vec(alloc)?),
    })
}
