//! The ServiceDetailRes that tells of a service (ISO 15118-2:2014, 8.4.3.3.3): that of a service of a catalogue, with its payload, and which set a car
//! picks of one that wants some parameters (own).
//!
//! Proved: `message_of`: the reply of a service (`IsDetailOf`), which holds what is declared (`IsWithin`); `payload_of`: its one encoding
//! (`IsPayloadOf`), or that this has more than 65,536 bytes; `pick`: the identifier of the first set in which each pair is met (`IsChoice`), or there
//! is none (`HasNoChoice`), without memory; `one_offer`: messages of one tree, as all that one payload spells, offer the same sets;
//! `payloads_offer_catalogues`: what is picked of the payload of a service is what is picked of the catalogue.
#![tactic(auto)]

mod laws;
mod meeting;
mod messages;
mod offers;
mod payloads;
mod picking;
mod values;

pub use laws::{one_offer, payloads_offer_catalogues};
pub use messages::message_of;
pub use payloads::{DetailFault, payload_of};
pub use picking::pick;
pub use schedule_answers;
pub use service_spec::{Parameter, Service, Want};
