//! The statuses of posts and cars, as words have them and as DIN SPEC 70121:2014 writes them (DC_EVSEStatusType, DC_EVStatusType).

ghost use Rattle.std.specs.Prelude.{◌≡◌};
ghost use Rattle.din_values.specs.Statuses as rule;

use crate::states::{
    evse_notification, evse_status_code, isolation_level, isolation_of, notify_of, status_code_of,
};
use din_parts::{DcEvStatus, DcEvseStatus, EvErrorCode};
use session_words::DcStatus;

/// The status of a post.
pub fn dc_status_of(status: DcEvseStatus) -> DcStatus
    ensures { result ≡ rule.dc_status_of status }
{
    DcStatus {
        notify: notify_of(status.evse_notification),
        isolation: status.evse_isolation_status.map(isolation_of),
        code: status_code_of(status.evse_status_code),
    }
}

/// The status of a post as it is written: no delay.
pub fn dc_evse_status(status: DcStatus) -> DcEvseStatus
    ensures { result ≡ rule.dc_evse_status status }
{
    DcEvseStatus {
        evse_isolation_status: status.isolation.map(isolation_level),
        evse_status_code: evse_status_code(status.code),
        notification_max_delay: 0,
        evse_notification: evse_notification(status.notify),
    }
}

/// The status of a car as it is written: no error.
pub fn dc_ev_status(ready: bool, soc: u8) -> DcEvStatus
    ensures { result ≡ rule.dc_ev_status ready soc }
{
    DcEvStatus {
        ev_ready: ready,
        ev_cabin_conditioning: None,
        evress_conditioning: None,
        ev_error_code: EvErrorCode::NoError,
        evress_soc: soc,
    }
}
