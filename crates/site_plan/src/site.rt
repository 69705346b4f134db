//! The keys of a station.

ghost use Rattle.std.specs.Prelude.{◌≡◌, ◌≤◌, All, IfOk, map, [], length};
ghost use Rattle.std.specs.List.{AllZip};
ghost use Rattle.arrayvec.specs.ArrayVec.{array_vec_len};
ghost use Rattle.session_words.specs.Plans.{IsPostPlan, IsSitePlan, IsWithin};
ghost use Rattle.plan_keys.specs.Keys.{Holds, Reads, table_of};
ghost use Rattle.plan_keys.specs.Faults.{AnswersBy, each_fault};
ghost use Rattle.site_plan.specs.Keys.{limit_rules};
ghost use Rattle.site_plan.specs.Plans.{post_file, post_wrong, post_unknown, IsSitePlanOf, site_told};

use crate::post::post_plan;
use arrayvec::ArrayVec;
use plan_keys::{Keys, PlanFault, document};
use session_words::{Mode, PostPlan, SitePlan};
use std::alloc::Global;
use toml::Value;

/// Reads the plan of the post with this number, and judges its unknown keys. Its first key that is wrong is refused.
fn read_post(
    alloc: Global,
    number: u16,
    item: &Value,
) -> Result<(PostPlan, Result<(), PlanFault>), PlanFault>
    ensures plan { IfOk result (λ post. Holds post_file (table_of item.now) post.0) }
    ensures wrong { AnswersBy (post_wrong number (table_of item.now)) result }
    ensures unknown { IfOk result (λ post. AnswersBy (post_unknown number (table_of item.now)) post.1) }
    ensures within { IfOk result (λ post. IsPostPlan post.0) }
{
    let prefix = format!(in alloc; "post.{number}.")?;
    let mut keys = Keys::of(item.as_table());
    let plan = post_plan(&mut keys, None, Mode::DcExtended);
    keys.judged(alloc, prefix.as_str())?;
    Ok((plan, keys.unknown(alloc, prefix.as_str())))
}

/// Reads the plans of the posts, one after another, and judges their unknown keys. The first key that is wrong is refused.
fn read_posts(
    alloc: Global,
    items: &[Value],
) -> Result<(ArrayVec<PostPlan, 8>, Result<(), PlanFault>), PlanFault>
    requires { length items.now ≤ 8 }
    ensures plans { IfOk result (λ posts. AllZip (Holds post_file) (map table_of items.now) posts.0.items) }
    ensures wrong { AnswersBy (each_fault post_wrong 1 (map table_of items.now)) result }
    ensures unknown { IfOk result (λ posts. AnswersBy (each_fault post_unknown 1 (map table_of items.now)) posts.1) }
    ensures within { IfOk result (λ posts. All IsPostPlan posts.0.items) }
    ensures count { IfOk result (λ posts. array_vec_len posts.0 ≡ length items.now) }
{
    let mut plans = ArrayVec::new();
    let mut unknown = Ok(());
    let mut number: u16 = 1;
    for item in items {
        let (plan, judged) = read_post(alloc, number, item)?;
        plans.push(plan);
        unknown = unknown.and(judged);
        number += 1;
    }
    Ok((plans, unknown))
}

/// Reads what a station's plan says of the whole, without its posts.
pub(crate) fn site_limits(keys: &mut Keys<'_>) -> SitePlan
    ensures read { Reads limit_rules keys.old keys.new result }
    ensures limits { IsWithin 1 8000000 result.limit × IsWithin 1 4294967296 result.turns × IsWithin 1 1000000 result.sessions }
    ensures posts { result.post.items ≡ [] }
{
    SitePlan {
        limit: keys.number("limit", 1, 8_000_000, Some(150_000)) as u32,
        turns: keys.number("turns", 1, 4_294_967_296, Some(1_000_000)),
        sessions: keys.number("sessions", 1, 1_000_000, Some(1)) as u32,
        post: ArrayVec::new(),
    }
}

/// Reads the plan of a station from TOML, or names its first fault (own).
pub fn site_plan_of(alloc: Global, text: &[u8]) -> Result<SitePlan, PlanFault>
    ensures plan { IfOk result (IsSitePlanOf text.now) }
    ensures told { AnswersBy (site_told text.now) result }
    ensures within { IfOk result IsSitePlan }
{
    let table = document(alloc, text)?;
    let mut keys = Keys::of(Some(&table));
    let mut site = site_limits(&mut keys);
    let items = keys.tables("post", 1, 8);
    keys.judged(alloc, "")?;
    let (posts, unknown) = read_posts(alloc, items)?;
    site.post = posts;
    keys.unknown(alloc, "")?;
    unknown?;
    Ok(site)
}
