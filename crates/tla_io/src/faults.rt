//! The faults that devices answer.

/// The device failed, and its count of faults rose in the call.
#[derive(Clone, Copy, Debug, PartialEq, Eq)]
pub struct Failed;

/// Why a shelf gave no answer.
#[derive(Clone, Copy, Debug, PartialEq, Eq)]
pub enum ShelfFault {
    /// The shelf failed, and its count of faults rose in the call.
    Failed,
    /// Memory for the text was refused; the count of faults is as it was.
    Memory,
}

/// Why a cache file was not read.
#[derive(Clone, Copy, Debug, PartialEq, Eq)]
pub enum CacheFault {
    /// The cache file failed, and its count of faults rose in the call.
    Failed,
    /// Memory for the content was refused; the count of faults is as it was.
    Memory,
}
