//! What holds of the sets that messages and payloads offer. Each of these functions does nothing: its contract is the law.

ghost use Rattle.std.specs.Prelude.{◌≡◌, ◌↔◌, ℕ, ℤ, List, Option, Some, None, map};
ghost use Rattle.iso_message.specs.declared.message.IsoMessage.{IsoMessage};
ghost use Rattle.iso_message.specs.Documents.{iso_tree, IsIso};
ghost use Rattle.service_spec.specs.declared.Service.{Service as Offered};
ghost use Rattle.service_spec.specs.Services.{Said, SaidSet, said_set_of, IsPicked, PicksNone};
ghost use Rattle.service_messages.specs.Offers.{Offers, IsChoice, HasNoChoice};
ghost use Rattle.service_messages.specs.Payloads.{IsPayloadOf};

use iso_codec::laws::encodings_are_read;

/// Messages of one tree offer the same sets, wherever their texts lie, and so do all that one payload spells: what is picked of a payload is what
/// is picked of the message that was written.
pub fn one_offer()
    ensures trees { (m n : IsoMessage) (sets : List SaidSet) → iso_tree m ≡ iso_tree n → Offers m sets → Offers n sets }
    ensures payloads { (payload : List ℕ) (m n : IsoMessage) (sets : List SaidSet) → IsIso m payload → IsIso n payload → Offers m sets → Offers n sets }
{}

/// Each message that is read of the payload for a service offers the sets of the catalogue, and none where the catalogue has no such service: what is
/// picked of the message is what is picked of the catalogue.
pub fn payloads_offer_catalogues()
    ensures read { (id : ℕ) (service : Option Offered) (payload : List ℕ) → IsPayloadOf id service payload → (m : IsoMessage) × IsIso m payload }
    ensures offered { (id : ℕ) (service : Offered) (payload : List ℕ) (m : IsoMessage) → IsPayloadOf id (Some service) payload → IsIso m payload
        → Offers m (map said_set_of service.sets.items) }
    ensures picked { (id : ℕ) (service : Offered) (payload : List ℕ) (m : IsoMessage) (want : List Said) (set : ℤ) → IsPayloadOf id (Some service) payload
        → IsIso m payload → IsChoice want m set ↔ IsPicked want (map said_set_of service.sets.items) set }
    ensures unpicked { (id : ℕ) (service : Offered) (payload : List ℕ) (m : IsoMessage) (want : List Said) → IsPayloadOf id (Some service) payload
        → IsIso m payload → HasNoChoice want m ↔ PicksNone want (map said_set_of service.sets.items) }
    ensures absent { (id : ℕ) (payload : List ℕ) (m : IsoMessage) (sets : List SaidSet) → IsPayloadOf id None payload → IsIso m payload → Offers m sets → ⊥ }
{
    encodings_are_read();
    one_offer();
}
