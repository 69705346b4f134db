//! Words that are judged for orders.

ghost use Rattle.std.specs.Prelude.{◌≡◌, ◌↔◌, ℕ, List, IsTrue};
ghost use Rattle.std.specs.Option.{option_map};
ghost use Rattle.charge_world.specs.declared.entry.Entry.{Entry};
ghost use Rattle.session_words.specs.declared.phase.Standing.TheVariants.{MustOpen};
ghost use Rattle.session_words.specs.declared.plan.PostPlan.{PostPlan};
ghost use Rattle.post_spec.specs.Codecs.{codecs};
ghost use Rattle.post_spec.specs.Steps.{Give};
ghost use Rattle.told_pasts.specs.Steps.{ToldStep, seen_in};
ghost use Rattle.faultless_pasts.specs.Faultless.{told_codecs};
ghost use Rattle.audit_posts.specs.Values as posts;
ghost use Rattle.audit_streams.specs.Streams as streams;
ghost use Rattle.audit_records.specs.Records.{JudgesWord};

use crate::words::word_told;
use audit_contactors::ContactorValues;
use audit_course::NextWord;
use audit_posts::KeptPost;
use audit_readings::{judged_by, order_judges};
use audit_streams::{ToldReader, ToldStream};
use charge_world::Order;
use session_words::Standing;

/// Whether an order to open would repeat one that failed.
fn must_open(contactor: &ContactorValues) -> bool
    ensures { IsTrue result ↔ (contactor.now.standing ≡ MustOpen) }
{
    matches!(contactor.standing, Standing::MustOpen)
}

/// The word that was judged for an order, if one was: not before, and not where the order opens for another reason.
pub fn judged_at_order<R: ToldReader>(
    stream: &ToldStream,
    kept: &KeptPost,
    order: &Order,
) -> Option<NextWord>
    ensures { (plan : PostPlan) (k : ℕ) (past : List Entry) (steps : List ToldStep) → streams.AreOf (codecs R.negotiates R.reads R.encodes) plan.dialects.items (seen_in steps) stream.now
        → posts.AreOf (told_codecs R.negotiates R.reads R.encodes R.responds R.watts) plan k past steps kept.now
        → JudgesWord (told_codecs R.negotiates R.reads R.encodes R.responds R.watts) plan steps (Give order.now) result }
{
    let reached = kept.course.is_due(&kept.sessions);
    let judges = order_judges(order, must_open(&kept.contactor), reached);
    match judged_by::<R>(stream, kept.mandate.judged, judges) {
        None => None,
        Some(word) => Some(word_told(word)),
    }
}
