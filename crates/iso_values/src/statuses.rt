//! The statuses of posts and cars, as words have them and as ISO 15118-2:2014 writes them (8.5.3.1, 8.5.4.1, 8.5.4.2).

ghost use Rattle.std.specs.Prelude.{◌≡◌};
ghost use Rattle.iso_values.specs.Statuses as rule;

use crate::states::{
    evse_notification, evse_status_code, isolation_level, isolation_of, notify_of, status_code_of,
};
use iso_parts::{AcEvseStatus, DcEvStatus, DcEvseStatus, EvErrorCode, EvseStatus};
use session_words::{DcStatus, Notify, PostStatus};

/// The status of a DC post.
pub fn dc_status_of(status: DcEvseStatus) -> DcStatus
    ensures { result ≡ rule.dc_status_of status }
{
    DcStatus {
        notify: notify_of(status.evse_notification),
        isolation: status.evse_isolation_status.map(isolation_of),
        code: status_code_of(status.evse_status_code),
    }
}

/// The status of a post of either kind.
pub fn post_status_of(status: EvseStatus) -> PostStatus
    ensures { result ≡ rule.post_status_of status }
{
    match status {
        EvseStatus::Ac(ac) => PostStatus::Ac {
            notify: notify_of(ac.evse_notification),
        },
        EvseStatus::Dc(dc) => PostStatus::Dc(dc_status_of(dc)),
    }
}

/// The status of an AC post as it is written: no delay, and no residual current.
pub fn ac_evse_status(notify: Notify) -> AcEvseStatus
    ensures { result ≡ rule.ac_evse_status notify }
{
    AcEvseStatus {
        notification_max_delay: 0,
        evse_notification: evse_notification(notify),
        rcd: false,
    }
}

/// The status of a DC post as it is written: no delay.
pub fn dc_evse_status(status: DcStatus) -> DcEvseStatus
    ensures { result ≡ rule.dc_evse_status status }
{
    DcEvseStatus {
        notification_max_delay: 0,
        evse_notification: evse_notification(status.notify),
        evse_isolation_status: status.isolation.map(isolation_level),
        evse_status_code: evse_status_code(status.code),
    }
}

/// The status of a post of either kind as it is written.
pub fn evse_status(status: PostStatus) -> EvseStatus
    ensures { result ≡ rule.evse_status status }
{
    match status {
        PostStatus::Ac { notify } => EvseStatus::Ac(ac_evse_status(notify)),
        PostStatus::Dc(dc) => EvseStatus::Dc(dc_evse_status(dc)),
    }
}

/// The status of a car as it is written: no error.
pub fn dc_ev_status(ready: bool, soc: u8) -> DcEvStatus
    ensures { result ≡ rule.dc_ev_status ready soc }
{
    DcEvStatus {
        ev_ready: ready,
        ev_error_code: EvErrorCode::NoError,
        evress_soc: soc,
    }
}
