//! What whoever judges a record keeps of the contactors of its posts, and the two checks that no word decides (IEC 61851-1 and IEC 61851-23;
//! ISO 15118-2:2014, 8.8): that an order that failed is followed by one to open, and that a live contactor is ordered open at the end.
//!
//! Proved: behind each entry the values are those that `told_pasts` reads off the whole past (`Contactors::behind`); `forgets_open` answers
//! exactly where the fourth check of a foreign trace fails, and `ends_live` exactly where the eighth does.
#![tactic(auto)]

mod site;
mod values;

pub use site::Contactors;
pub use values::ContactorValues;
