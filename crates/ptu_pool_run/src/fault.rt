//! Why a script of pools was not run to its end.

use crate::cause::PoolCause;
use ptu_report::RunFault;

/// Why a script of pools was not run to its end.
pub type PoolRunFault = RunFault<PoolCause>;

/// What a line comes to: nothing, or why it is refused; or no memory was found.
pub(crate) type Stepped = ptu_report::Stepped<PoolCause>;
