//! The words of a charging session, the same for ISO 15118-2:2014 and DIN SPEC 70121:2014, and the plans of its ends.
//!
//! All types have a fixed size. Amounts of voltage and current count in tenths, amounts of power in watts.
//!
//! Proved: the rules of amounts (`Amount::in_tenths`, `in_units`, `dc_watts`, `ac_watts`, ..), `EndCause::number`, the session identifier.
#![tactic(auto)]

pub mod amount;
pub mod cause;
pub mod code;
pub mod facts;
pub mod limits;
pub mod mode;
pub mod phase;
pub mod plan;
pub mod session;
pub mod word;

pub use amount::{Amount, WrittenWatts, ac_current, ac_watts, dc_watts, written_watts};
pub use cause::{EndCause, Timeout};
pub use code::{Code, Notify, Processing, Progress, StatusCode};
pub use facts::{CarCarried, Carried, Facts};
pub use limits::{CarLimits, DcStatus, EvseId, EvseText, PostLimits, PostStatus, Tuple};
pub use mode::{Mode, OfferedMode};
pub use phase::{Phase, Standing};
pub use plan::{CarPlan, PostPlan, SitePlan, Stop};
pub use session::SessionId;
pub use word::{Ask, Reply, Request, Tell, Word};
