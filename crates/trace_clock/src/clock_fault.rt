//! Why a clock gives no seat.

use thiserror::Error;

/// A clock gives no seat. It stays as it was.
#[derive(Clone, Copy, Debug, PartialEq, Eq, Error)]
pub enum ClockFault {
    #[error("the clock has fewer readings left than the quota")]
    QuotaSpent,
    #[error("out of memory")]
    OutOfMemory,
}
