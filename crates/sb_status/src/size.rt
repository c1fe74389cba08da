//! Sizes as people read them.

use crate::markup::Markup;
use crate::page::Page;
use std::alloc::AllocError;

const KILOBYTE: u64 = 1024;

const MEGABYTE: u64 = 1024 * KILOBYTE;

const GIGABYTE: u64 = 1024 * MEGABYTE;

/// Writes so many bytes: in the greatest unit of which there is one, with a digit behind the point, which is cut off.
pub(crate) fn write_size(page: &mut Page<'_>, bytes: u64) -> Result<(), AllocError> {
    let (unit, mark) = match bytes {
        GIGABYTE.. => (GIGABYTE, Markup::Gigabytes),
        MEGABYTE.. => (MEGABYTE, Markup::Megabytes),
        KILOBYTE.. => (KILOBYTE, Markup::Kilobytes),
        _ => {
            page.number(bytes)?;
            return page.mark(Markup::Bytes);
        }
    };
    page.number(bytes / unit)?;
    page.mark(Markup::Point)?;
    page.number(bytes % unit * 10 / unit)?;
    page.mark(mark)
}
