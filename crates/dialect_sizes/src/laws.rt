//! Laws of the sizes of documents of the dialects (ISO 15118-2:2014 and DIN SPEC 70121:2014).

ghost use Rattle.std.specs.Prelude.{◌≡◌, true};
ghost use Rattle.app_schema.specs.Declarations.{negotiation_schema};
ghost use Rattle.din_schema.specs.Declarations.{schema as din_messages};
ghost use Rattle.iso_schema.specs.Declarations.{schema as iso_messages};
ghost use Rattle.document_sizes.specs.Sizes.{has_narrow_codes};

/// No event code and no name of an enumeration has more than 6 bits in a message, nor more than 2 in the negotiation.
pub fn codes_are_narrow()
    ensures iso { has_narrow_codes 6 iso_messages ≡ true }
    ensures din { has_narrow_codes 6 din_messages ≡ true }
    ensures app { has_narrow_codes 2 negotiation_schema ≡ true }
{}
