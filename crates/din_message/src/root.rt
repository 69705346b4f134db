//! A message as the root of its document.

use crate::message::DinMessage;
use din_schema::names;
use exi_documents::Refusal;
use exi_schema::Places;
use message_parts::exi_events::EventWriter;
use message_parts::{Descent, LargeChoice, PutChoice, Root, member_here, put_record};

impl PutChoice for DinMessage<'_> {
    ghost use Rattle.din_schema.specs.Declarations.{kinds};
    ghost use Rattle.din_message.specs.Documents.{din_roots};
    ghost use Rattle.din_message.specs.Documents.{din_inside};
    ghost use Rattle.din_schema.specs.declared.names.TheConstants.{V2G_MESSAGE};

    ghost kinds = { kinds };

    ghost members = { din_roots };

    ghost name = { λ v. V2G_MESSAGE };

    ghost inside = { din_inside };

    fn write_member<P: Places>(&self, writer: &mut EventWriter<'_, '_, P>) {
        put_record(writer, names::V2G_MESSAGE, self);
    }
}

impl<'a> LargeChoice<'a> for DinMessage<'a> {
    fn read_member_here<P: Places>(
        &mut self,
        descent: &mut Descent<'a, '_, P>,
    ) -> Result<(), Refusal> {
        member_here(self, descent)
    }
}

impl Root for DinMessage<'_> {
    ghost use Rattle.din_message.specs.Documents.{din_number};

    ghost number = { λ v. din_number };

    fn number(&self) -> u32 {
        77
    }
}
