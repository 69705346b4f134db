//! The contactor of a post: when it may be closed, how it stands, and whether its feedback is against its order (IEC 61851-1; the states
//! are own).
//!
//! Proved: `CloseRight` exists only under its conditions and is spent once; `Contactor` stands as its orders and feedback say;
//! `law_of_contactor`.
#![tactic(auto)]

pub mod contactor;
pub mod law;
pub mod right;

pub use contactor::{Contactor, standing_behind};
pub use law::law_of_contactor;
pub use right::{CloseRight, is_ready};
pub use session_words::Standing;
