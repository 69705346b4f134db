//! What holds of the answers to a payload. The function does nothing: its contract is the law.

ghost use Rattle.std.specs.Prelude.{◌≡◌, ℕ, List};
ghost use Rattle.exi_documents.specs.declared.refusal.RefusalCause.{RefusalCause};
ghost use Rattle.iso_message.specs.Documents.{IsIsoRefused};
ghost use Rattle.schedules.specs.declared.power.Need.{Need};
ghost use Rattle.schedules.specs.declared.power.Profile.{Profile};
ghost use Rattle.schedule_answers.specs.declared.choosing.ScheduleFault.{ScheduleFault};
ghost use Rattle.schedule_answers.specs.Answers.{IsAnswerIn, IsFaultIn};

use iso_codec::laws::messages_and_refusals;
use schedules::one_best;

/// A payload is refused, or one profile answers a need, or there is one reason why none does; and never two of these.
pub fn one_fate()
    ensures profile { (payload : List ℕ) (need : Need) (one other : Profile) → IsAnswerIn payload need one → IsAnswerIn payload need other → one ≡ other }
    ensures apart { (payload : List ℕ) (need : Need) (profile : Profile) (fault : ScheduleFault) → IsAnswerIn payload need profile → IsFaultIn payload need fault → ⊥ }
    ensures fault { (payload : List ℕ) (need : Need) (one other : ScheduleFault) → IsFaultIn payload need one → IsFaultIn payload need other → one ≡ other }
    ensures answered { (payload : List ℕ) (need : Need) (profile : Profile) (why : RefusalCause) (bit : ℕ) → IsAnswerIn payload need profile → IsIsoRefused payload why bit → ⊥ }
    ensures unanswered { (payload : List ℕ) (need : Need) (fault : ScheduleFault) (why : RefusalCause) (bit : ℕ) → IsFaultIn payload need fault → IsIsoRefused payload why bit → ⊥ }
{
    one_best();
    messages_and_refusals();
}
