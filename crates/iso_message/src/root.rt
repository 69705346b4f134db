//! A message as the root of its document.

ghost use Rattle.std.specs.Prelude.{◌≡◌, Some};
ghost use Rattle.iso_message.specs.declared.message.BodyElement.TheVariants as elements;
ghost use Rattle.iso_elements.specs.declared.brief.BriefElement.TheVariants as briefs;

use crate::message::{Body, BodyElement, IsoMessage};
use exi_documents::Refusal;
use exi_schema::Places;
use iso_elements::BriefElement;
use iso_elements::iso_delivery::ChargingStatusReq;
use iso_elements::iso_parts::Header;
use iso_schema::names;
use message_parts::exi_events::EventWriter;
use message_parts::{Descent, LargeChoice, PutChoice, Root, member_here, put_record};

impl<'a> IsoMessage<'a> {
    /// A message to read another into: reading a brief element over its own clears no room of the long ones.
    pub fn unread() -> IsoMessage<'a>
        ensures { result.body.element ≡ Some (elements.Brief (briefs.ChargingStatusReq (record {}))) }
    {
        IsoMessage {
            header: Header::default(),
            body: Body {
                element: Some(BodyElement::Brief(BriefElement::ChargingStatusReq(
                    ChargingStatusReq,
                ))),
            },
        }
    }
}

impl PutChoice for IsoMessage<'_> {
    ghost use Rattle.iso_schema.specs.Declarations.{kinds};
    ghost use Rattle.iso_message.specs.Documents.{iso_roots};
    ghost use Rattle.iso_message.specs.Documents.{iso_inside};
    ghost use Rattle.iso_schema.specs.declared.names.TheConstants.{V2G_MESSAGE};

    ghost kinds = { kinds };

    ghost members = { iso_roots };

    ghost name = { λ v. V2G_MESSAGE };

    ghost inside = { iso_inside };

    fn write_member<P: Places>(&self, writer: &mut EventWriter<'_, '_, P>) {
        put_record(writer, names::V2G_MESSAGE, self);
    }
}

impl<'a> LargeChoice<'a> for IsoMessage<'a> {
    fn read_member_here<P: Places>(
        &mut self,
        descent: &mut Descent<'a, '_, P>,
    ) -> Result<(), Refusal> {
        member_here(self, descent)
    }
}

impl Root for IsoMessage<'_> {
    ghost use Rattle.iso_message.specs.Documents.{iso_number};

    ghost number = { λ v. iso_number };

    fn number(&self) -> u32 {
        76
    }
}
