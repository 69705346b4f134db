//! Which request a car's frame holds, at a glance.
//!
//! A car's header has a session's identifier alone, of eight bytes. So the number of the schema's element and that of the body's element stand
//! at fixed bits behind the frame's eight bytes and the payload's first (EXI 8.5.4, Table 8-2). A glance decides nothing but what a person is told.

use charge_world::Dialect;

/// A request of a car that is told of.
#[derive(Clone, Copy)]
pub enum Request {
    /// The first one behind the negotiation.
    SessionSetup(Dialect),
    /// One of the charging loop: CurrentDemand or ChargingStatus.
    Charging,
}

/// The place of the payload in a frame of V2GTP.
const PAYLOAD: usize = 8;

/// The numbers of V2G_Message among the elements of a schema.
const ISO_MESSAGE: u8 = 76;

const DIN_MESSAGE: u8 = 77;

/// The numbers of three bodies among those of a schema. CurrentDemandReq and SessionSetupReq have the same ones in both.
const CHARGING_STATUS: u8 = 11;

const CURRENT_DEMAND: u8 = 13;

const SESSION_SETUP: u8 = 29;

/// The request in a frame that a car sends, where it is one that is told of.
pub fn request_in(frame: &[u8]) -> Option<Request> {
    let (_, payload) = frame.split_at_checked(PAYLOAD)?;
    let message = payload.get(1)? >> 1;
    let dialect = match message {
        ISO_MESSAGE => Dialect::Iso,
        DIN_MESSAGE => Dialect::Din,
        _ => return None,
    };
    let number = (payload.get(11)? % 4) * 16 + payload.get(12)? / 16;
    match (number, dialect) {
        (SESSION_SETUP, _) => Some(Request::SessionSetup(dialect)),
        (CURRENT_DEMAND, _) | (CHARGING_STATUS, Dialect::Iso) => Some(Request::Charging),
        _ => None,
    }
}
