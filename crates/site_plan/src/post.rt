//! The keys of a post.

ghost use Rattle.std.specs.Prelude.{IfSome};
ghost use Rattle.session_words.specs.Plans.{IsPostPlan, IsWithin};
ghost use Rattle.plan_keys.specs.Keys.{Reads};
ghost use Rattle.site_plan.specs.Keys.{post_rules};

use crate::words::{dialects, evse_id, mode, tenths};
use plan_keys::Keys;
use session_words::{Mode, PostPlan};

/// Reads the plan of a post, whose port and mode have these defaults.
pub(crate) fn post_plan(keys: &mut Keys<'_>, port: Option<u64>, usual: Mode) -> PostPlan
    requires { IfSome port (IsWithin 1 65535) }
    ensures read { Reads (post_rules port usual) keys.old keys.new result }
    ensures within { IsPostPlan result }
{
    let tcp = keys.number("tcp", 1, 65535, port) as u16;
    let sdp = keys.number("sdp", 0, 65535, Some(0)) as u16;
    let mode = mode(keys, usual);
    PostPlan {
        tcp,
        sdp,
        mode,
        dialects: dialects(keys, mode),
        evse_id: evse_id(keys),
        evse_id_din: keys.bytes("evse_id_din", 1, 32, &[0]),
        free: keys.truth("free", Some(true)),
        max_watts: keys.number("max_watts", 1, 1_000_000, Some(50_000)) as u32,
        max_voltage: tenths(keys, "max_voltage", 9200),
        min_voltage: tenths(keys, "min_voltage", 1500),
        max_current: tenths(keys, "max_current", 1250),
        min_current: tenths(keys, "min_current", 0),
        ripple: tenths(keys, "ripple", 10),
        nominal: keys.number("nominal", 1, 1000, Some(230)) as u16,
    }
}
