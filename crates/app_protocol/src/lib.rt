//! The negotiation of a message set (ISO 15118-2:2014, section 8.2): its messages read, written, printed and scanned, and the rule.
//!
//! Proved: `read_app` reads exactly the messages of the negotiation (`IsApp`), and answers the exact refusal of every other payload
//! (`IsAppRefused`); `write_app` writes the one encoding of a message (`IsAppEncoding`), which is read back as that message, and is `Full`
//! exactly where the room is smaller, with the bits that are needed; `negotiate` is the rule (`Negotiates`); `print` (`IsPrinted`) and
//! `scan` (`IsAppScanned`, `IsAppScanFault`) go to the text of a message and back; `messages_and_refusals`, `payloads_and_faults`: not
//! both, and one refusal; `one_encoding`; `responses_fit_four_bytes`.
#![tactic(auto)]

mod codec;
pub mod laws;
mod message;
mod negotiation;
mod printing;
mod scanning;

pub use charge_world::{Dialect, Offer};
pub use codec::{read_app, write_app};
pub use exi_documents::{Refusal, RefusalCause};
pub use exi_events::{Full, Table};
pub use message::{AppCode, AppMessage, AppProtocol, AppReq, AppRes};
pub use message_parts::Text;
pub use negotiation::{negotiate, negotiate_among};
pub use printing::print;
pub use scanning::scan;
pub use tree_text::{PrintFault, ScanFault};
