//! The declarations of the messages of ISO 15118-2 as tables.

ghost use Rattle.std.specs.Prelude.{◌≡◌, ◌++◌, IfOk, map};
ghost use Rattle.exi_schema.specs.Plain.{plain_kinds};
ghost use Rattle.exi_schema.specs.Told.{schema_of};
ghost use Rattle.iso_schema.specs.Declarations as declared;

use crate::kinds::*;
use crate::names::*;
use exi_schema::{
    AttributeOf, Datatype, Declaration, Member, MemberStanding, Particle, RootOf, Schema,
};
use std::alloc::{AllocError, Global};

static NAMES: [&'static str; 160] = [
    "V2G_Message",
    "Header",
    "Body",
    "SessionID",
    "Notification",
    "Signature",
    "FaultCode",
    "FaultMsg",
    "AuthorizationReq",
    "AuthorizationRes",
    "BodyElement",
    "CableCheckReq",
    "CableCheckRes",
    "CertificateInstallationReq",
    "CertificateInstallationRes",
    "CertificateUpdateReq",
    "CertificateUpdateRes",
    "ChargeParameterDiscoveryReq",
    "ChargeParameterDiscoveryRes",
    "ChargingStatusReq",
    "ChargingStatusRes",
    "CurrentDemandReq",
    "CurrentDemandRes",
    "MeteringReceiptReq",
    "MeteringReceiptRes",
    "PaymentDetailsReq",
    "PaymentDetailsRes",
    "PaymentServiceSelectionReq",
    "PaymentServiceSelectionRes",
    "PowerDeliveryReq",
    "PowerDeliveryRes",
    "PreChargeReq",
    "PreChargeRes",
    "ServiceDetailReq",
    "ServiceDetailRes",
    "ServiceDiscoveryReq",
    "ServiceDiscoveryRes",
    "SessionSetupReq",
    "SessionSetupRes",
    "SessionStopReq",
    "SessionStopRes",
    "WeldingDetectionReq",
    "WeldingDetectionRes",
    "Multiplier",
    "Unit",
    "Value",
    "EVReady",
    "EVErrorCode",
    "EVRESSSOC",
    "NotificationMaxDelay",
    "EVSENotification",
    "RCD",
    "EVSEIsolationStatus",
    "EVSEStatusCode",
    "MeterID",
    "MeterReading",
    "SigMeterReading",
    "MeterStatus",
    "TMeter",
    "EVCCID",
    "ResponseCode",
    "EVSEID",
    "EVSETimeStamp",
    "ServiceScope",
    "ServiceCategory",
    "PaymentOptionList",
    "ChargeService",
    "ServiceList",
    "PaymentOption",
    "ServiceID",
    "ServiceName",
    "FreeService",
    "SupportedEnergyTransferMode",
    "EnergyTransferMode",
    "Service",
    "ServiceParameterList",
    "ParameterSet",
    "ParameterSetID",
    "Parameter",
    "Name",
    "boolValue",
    "byteValue",
    "shortValue",
    "intValue",
    "physicalValue",
    "stringValue",
    "SelectedPaymentOption",
    "SelectedServiceList",
    "SelectedService",
    "Id",
    "GenChallenge",
    "EVSEProcessing",
    "ChargingSession",
    "MaxEntriesSAScheduleTuple",
    "RequestedEnergyTransferMode",
    "AC_EVChargeParameter",
    "DC_EVChargeParameter",
    "EVChargeParameter",
    "DepartureTime",
    "EAmount",
    "EVMaxVoltage",
    "EVMaxCurrent",
    "EVMinCurrent",
    "DC_EVStatus",
    "EVMaximumCurrentLimit",
    "EVMaximumPowerLimit",
    "EVMaximumVoltageLimit",
    "EVEnergyCapacity",
    "EVEnergyRequest",
    "FullSOC",
    "BulkSOC",
    "SAScheduleList",
    "SASchedules",
    "AC_EVSEChargeParameter",
    "DC_EVSEChargeParameter",
    "EVSEChargeParameter",
    "SAScheduleTuple",
    "SAScheduleTupleID",
    "PMaxSchedule",
    "SalesTariff",
    "PMaxScheduleEntry",
    "RelativeTimeInterval",
    "TimeInterval",
    "PMax",
    "start",
    "duration",
    "AC_EVSEStatus",
    "EVSENominalVoltage",
    "EVSEMaxCurrent",
    "DC_EVSEStatus",
    "EVSEMaximumCurrentLimit",
    "EVSEMaximumPowerLimit",
    "EVSEMaximumVoltageLimit",
    "EVSEMinimumCurrentLimit",
    "EVSEMinimumVoltageLimit",
    "EVSECurrentRegulationTolerance",
    "EVSEPeakCurrentRipple",
    "EVSEEnergyToBeDelivered",
    "ChargeProgress",
    "ChargingProfile",
    "DC_EVPowerDeliveryParameter",
    "EVPowerDeliveryParameter",
    "ProfileEntry",
    "ChargingProfileEntryStart",
    "ChargingProfileEntryMaxPower",
    "ChargingProfileEntryMaxNumberOfPhasesInUse",
    "BulkChargingComplete",
    "ChargingComplete",
    "EVSEStatus",
    "MeterInfo",
    "ReceiptRequired",
    "EVTargetVoltage",
    "EVTargetCurrent",
    "EVSEPresentVoltage",
    "RemainingTimeToFullSoC",
    "RemainingTimeToBulkSoC",
    "EVSEPresentCurrent",
    "EVSECurrentLimitAchieved",
    "EVSEVoltageLimitAchieved",
    "EVSEPowerLimitAchieved",
];

const FAULT_CODE_VALUES: [&'static str; 3] = [
    "ParsingError",
    "NoTLSRootCertificatAvailable",
    "UnknownError",
];

const UNIT_SYMBOL_VALUES: [&'static str; 7] = ["h", "m", "s", "A", "V", "W", "Wh"];

const EV_ERROR_CODE_VALUES: [&'static str; 12] = [
    "NO_ERROR",
    "FAILED_RESSTemperatureInhibit",
    "FAILED_EVShiftPosition",
    "FAILED_ChargerConnectorLockFault",
    "FAILED_EVRESSMalfunction",
    "FAILED_ChargingCurrentdifferential",
    "FAILED_ChargingVoltageOutOfRange",
    "Reserved_A",
    "Reserved_B",
    "Reserved_C",
    "FAILED_ChargingSystemIncompatibility",
    "NoData",
];

const EVSE_NOTIFICATION_VALUES: [&'static str; 3] = ["None", "StopCharging", "ReNegotiation"];

const ISOLATION_LEVEL_VALUES: [&'static str; 5] = [
    "Invalid", "Valid", "Warning", "Fault", "No_IMD",
];

const EVSE_STATUS_CODE_VALUES: [&'static str; 12] = [
    "EVSE_NotReady",
    "EVSE_Ready",
    "EVSE_Shutdown",
    "EVSE_UtilityInterruptEvent",
    "EVSE_IsolationMonitoringActive",
    "EVSE_EmergencyShutdown",
    "EVSE_Malfunction",
    "Reserved_8",
    "Reserved_9",
    "Reserved_A",
    "Reserved_B",
    "Reserved_C",
];

const RESPONSE_CODE_VALUES: [&'static str; 26] = [
    "OK",
    "OK_NewSessionEstablished",
    "OK_OldSessionJoined",
    "OK_CertificateExpiresSoon",
    "FAILED",
    "FAILED_SequenceError",
    "FAILED_ServiceIDInvalid",
    "FAILED_UnknownSession",
    "FAILED_ServiceSelectionInvalid",
    "FAILED_PaymentSelectionInvalid",
    "FAILED_CertificateExpired",
    "FAILED_SignatureError",
    "FAILED_NoCertificateAvailable",
    "FAILED_CertChainError",
    "FAILED_ChallengeInvalid",
    "FAILED_ContractCanceled",
    "FAILED_WrongChargeParameter",
    "FAILED_PowerDeliveryNotApplied",
    "FAILED_TariffSelectionInvalid",
    "FAILED_ChargingProfileInvalid",
    "FAILED_MeteringSignatureNotValid",
    "FAILED_NoChargeServiceSelected",
    "FAILED_WrongEnergyTransferMode",
    "FAILED_ContactorError",
    "FAILED_CertificateNotAllowedAtThisEVSE",
    "FAILED_CertificateRevoked",
];

const SERVICE_CATEGORY_VALUES: [&'static str; 4] = [
    "EVCharging",
    "Internet",
    "ContractCertificate",
    "OtherCustom",
];

const PAYMENT_OPTION_VALUES: [&'static str; 2] = ["Contract", "ExternalPayment"];

const ENERGY_TRANSFER_MODE_VALUES: [&'static str; 6] = [
    "AC_single_phase_core",
    "AC_three_phase_core",
    "DC_core",
    "DC_extended",
    "DC_combo_core",
    "DC_unique",
];

const EVSE_PROCESSING_VALUES: [&'static str; 3] = [
    "Finished",
    "Ongoing",
    "Ongoing_WaitingForCustomerInteraction",
];

const CHARGING_SESSION_VALUES: [&'static str; 2] = ["Terminate", "Pause"];

const CHARGE_PROGRESS_VALUES: [&'static str; 3] = ["Start", "Stop", "Renegotiate"];

const NONE: [&'static str; 0] = [];

static VALUES: [&'static [&'static str]; 91] = [
    &NONE,
    &NONE,
    &NONE,
    &NONE,
    &NONE,
    &NONE,
    &NONE,
    &NONE,
    &NONE,
    &NONE,
    &NONE,
    &NONE,
    &NONE,
    &NONE,
    &NONE,
    &NONE,
    &NONE,
    &NONE,
    &NONE,
    &NONE,
    &NONE,
    &FAULT_CODE_VALUES,
    &UNIT_SYMBOL_VALUES,
    &EV_ERROR_CODE_VALUES,
    &EVSE_NOTIFICATION_VALUES,
    &ISOLATION_LEVEL_VALUES,
    &EVSE_STATUS_CODE_VALUES,
    &RESPONSE_CODE_VALUES,
    &SERVICE_CATEGORY_VALUES,
    &PAYMENT_OPTION_VALUES,
    &ENERGY_TRANSFER_MODE_VALUES,
    &EVSE_PROCESSING_VALUES,
    &CHARGING_SESSION_VALUES,
    &CHARGE_PROGRESS_VALUES,
    &NONE,
    &NONE,
    &NONE,
    &NONE,
    &NONE,
    &NONE,
    &NONE,
    &NONE,
    &NONE,
    &NONE,
    &NONE,
    &NONE,
    &NONE,
    &NONE,
    &NONE,
    &NONE,
    &NONE,
    &NONE,
    &NONE,
    &NONE,
    &NONE,
    &NONE,
    &NONE,
    &NONE,
    &NONE,
    &NONE,
    &NONE,
    &NONE,
    &NONE,
    &NONE,
    &NONE,
    &NONE,
    &NONE,
    &NONE,
    &NONE,
    &NONE,
    &NONE,
    &NONE,
    &NONE,
    &NONE,
    &NONE,
    &NONE,
    &NONE,
    &NONE,
    &NONE,
    &NONE,
    &NONE,
    &NONE,
    &NONE,
    &NONE,
    &NONE,
    &NONE,
    &NONE,
    &NONE,
    &NONE,
    &NONE,
    &NONE,
];

/// An element of a particle.
macro_rules! member {
    ($standing:ident, $name:expr, $kind:expr) => {
        Member { name: $name, kind: $kind, standing: MemberStanding::$standing }
    };
}

/// One element, from so many to so many times.
macro_rules! copies {
    ($least:expr, $most:expr, $name:expr, $kind:expr) => {
        Particle { members: &[member!(Taken, $name, $kind)], least: $least, most: Some($most), profile: $most }
    };
}

macro_rules! once {
    ($name:expr, $kind:expr) => { copies!(1, 1, $name, $kind) };
}

macro_rules! perhaps {
    ($name:expr, $kind:expr) => { copies!(0, 1, $name, $kind) };
}

macro_rules! up_to {
    ($most:expr, $name:expr, $kind:expr) => { copies!(1, $most, $name, $kind) };
}

/// One element, once and more, of which so many are accepted.
macro_rules! at_least_one {
    ($profile:expr, $name:expr, $kind:expr) => {
        Particle { members: &[member!(Taken, $name, $kind)], least: 1, most: None, profile: $profile }
    };
}

/// An element that may be there in the standard, and is left out.
macro_rules! left_out {
    ($name:expr) => {
        Particle { members: &[member!(OutOfProfile, $name, EMPTY_KIND)], least: 0, most: Some(1), profile: 1 }
    };
}

/// One of these elements, or with 0 perhaps one.
macro_rules! one_of {
    ($least:expr, $members:expr) => {
        Particle { members: &$members, least: $least, most: Some(1), profile: 1 }
    };
}

const V2G_MESSAGE_PARTICLES: [Particle<'static>; 2] = [
    once!(HEADER, HEADER_KIND),
    once!(BODY, BODY_KIND),
];

const HEADER_PARTICLES: [Particle<'static>; 3] = [
    once!(SESSION_ID, BINARY8_KIND),
    perhaps!(NOTIFICATION, NOTIFICATION_KIND),
    left_out!(SIGNATURE),
];

const NOTIFICATION_PARTICLES: [Particle<'static>; 2] = [
    once!(FAULT_CODE, FAULT_CODE_KIND),
    perhaps!(FAULT_MSG, TEXT64_KIND),
];

const BODY_PARTICLES: [Particle<'static>; 1] = [one_of!(
    0,
    [
        member!(Taken, AUTHORIZATION_REQ, AUTHORIZATION_REQ_KIND),
        member!(Taken, AUTHORIZATION_RES, AUTHORIZATION_RES_KIND),
        member!(Abstract, BODY_ELEMENT, EMPTY_KIND),
        member!(Taken, CABLE_CHECK_REQ, CABLE_CHECK_REQ_KIND),
        member!(Taken, CABLE_CHECK_RES, CABLE_CHECK_RES_KIND),
        member!(OutOfProfile, CERTIFICATE_INSTALLATION_REQ, EMPTY_KIND),
        member!(OutOfProfile, CERTIFICATE_INSTALLATION_RES, EMPTY_KIND),
        member!(OutOfProfile, CERTIFICATE_UPDATE_REQ, EMPTY_KIND),
        member!(OutOfProfile, CERTIFICATE_UPDATE_RES, EMPTY_KIND),
        member!(
            Taken,
            CHARGE_PARAMETER_DISCOVERY_REQ,
            CHARGE_PARAMETER_DISCOVERY_REQ_KIND
        ),
        member!(
            Taken,
            CHARGE_PARAMETER_DISCOVERY_RES,
            CHARGE_PARAMETER_DISCOVERY_RES_KIND
        ),
        member!(Taken, CHARGING_STATUS_REQ, EMPTY_KIND),
        member!(Taken, CHARGING_STATUS_RES, CHARGING_STATUS_RES_KIND),
        member!(Taken, CURRENT_DEMAND_REQ, CURRENT_DEMAND_REQ_KIND),
        member!(Taken, CURRENT_DEMAND_RES, CURRENT_DEMAND_RES_KIND),
        member!(OutOfProfile, METERING_RECEIPT_REQ, EMPTY_KIND),
        member!(OutOfProfile, METERING_RECEIPT_RES, EMPTY_KIND),
        member!(OutOfProfile, PAYMENT_DETAILS_REQ, EMPTY_KIND),
        member!(OutOfProfile, PAYMENT_DETAILS_RES, EMPTY_KIND),
        member!(
            Taken,
            PAYMENT_SERVICE_SELECTION_REQ,
            PAYMENT_SERVICE_SELECTION_REQ_KIND
        ),
        member!(
            Taken,
            PAYMENT_SERVICE_SELECTION_RES,
            PAYMENT_SERVICE_SELECTION_RES_KIND
        ),
        member!(Taken, POWER_DELIVERY_REQ, POWER_DELIVERY_REQ_KIND),
        member!(Taken, POWER_DELIVERY_RES, POWER_DELIVERY_RES_KIND),
        member!(Taken, PRE_CHARGE_REQ, PRE_CHARGE_REQ_KIND),
        member!(Taken, PRE_CHARGE_RES, PRE_CHARGE_RES_KIND),
        member!(Taken, SERVICE_DETAIL_REQ, SERVICE_DETAIL_REQ_KIND),
        member!(Taken, SERVICE_DETAIL_RES, SERVICE_DETAIL_RES_KIND),
        member!(Taken, SERVICE_DISCOVERY_REQ, SERVICE_DISCOVERY_REQ_KIND),
        member!(Taken, SERVICE_DISCOVERY_RES, SERVICE_DISCOVERY_RES_KIND),
        member!(Taken, SESSION_SETUP_REQ, SESSION_SETUP_REQ_KIND),
        member!(Taken, SESSION_SETUP_RES, SESSION_SETUP_RES_KIND),
        member!(Taken, SESSION_STOP_REQ, SESSION_STOP_REQ_KIND),
        member!(Taken, SESSION_STOP_RES, SESSION_STOP_RES_KIND),
        member!(Taken, WELDING_DETECTION_REQ, WELDING_DETECTION_REQ_KIND),
        member!(Taken, WELDING_DETECTION_RES, WELDING_DETECTION_RES_KIND)
    ]
)];

const PHYSICAL_VALUE_PARTICLES: [Particle<'static>; 3] = [
    once!(MULTIPLIER, MULTIPLIER_KIND),
    once!(UNIT, UNIT_SYMBOL_KIND),
    once!(VALUE, SHORT_KIND),
];

const DC_EV_STATUS_PARTICLES: [Particle<'static>; 3] = [
    once!(EV_READY, BOOLEAN_KIND),
    once!(EV_ERROR_CODE, EV_ERROR_CODE_KIND),
    once!(EVRESS_SOC, PERCENT_KIND),
];

const AC_EVSE_STATUS_PARTICLES: [Particle<'static>; 3] = [
    once!(NOTIFICATION_MAX_DELAY, UNSIGNED_SHORT_KIND),
    once!(EVSE_NOTIFICATION, EVSE_NOTIFICATION_KIND),
    once!(RCD, BOOLEAN_KIND),
];

const DC_EVSE_STATUS_PARTICLES: [Particle<'static>; 4] = [
    once!(NOTIFICATION_MAX_DELAY, UNSIGNED_SHORT_KIND),
    once!(EVSE_NOTIFICATION, EVSE_NOTIFICATION_KIND),
    perhaps!(EVSE_ISOLATION_STATUS, ISOLATION_LEVEL_KIND),
    once!(EVSE_STATUS_CODE, EVSE_STATUS_CODE_KIND),
];

const METER_INFO_PARTICLES: [Particle<'static>; 5] = [
    once!(METER_ID, TEXT32_KIND),
    perhaps!(METER_READING, UNSIGNED_LONG_KIND),
    perhaps!(SIG_METER_READING, BINARY64_KIND),
    perhaps!(METER_STATUS, SHORT_KIND),
    perhaps!(T_METER, LONG_KIND),
];

const SESSION_SETUP_REQ_PARTICLES: [Particle<'static>; 1] = [once!(EVCCID, BINARY6_KIND)];

const SESSION_SETUP_RES_PARTICLES: [Particle<'static>; 3] = [
    once!(RESPONSE_CODE, RESPONSE_CODE_KIND),
    once!(EVSEID, TEXT37_KIND),
    perhaps!(EVSE_TIME_STAMP, LONG_KIND),
];

const SERVICE_DISCOVERY_REQ_PARTICLES: [Particle<'static>; 2] = [
    perhaps!(SERVICE_SCOPE, TEXT64_KIND),
    perhaps!(SERVICE_CATEGORY, SERVICE_CATEGORY_KIND),
];

const SERVICE_DISCOVERY_RES_PARTICLES: [Particle<'static>; 4] = [
    once!(RESPONSE_CODE, RESPONSE_CODE_KIND),
    once!(PAYMENT_OPTION_LIST, PAYMENT_OPTION_LIST_KIND),
    once!(CHARGE_SERVICE, CHARGE_SERVICE_KIND),
    perhaps!(SERVICE_LIST, SERVICE_LIST_KIND),
];

const PAYMENT_OPTION_LIST_PARTICLES: [Particle<'static>; 1] = [up_to!(
    2,
    PAYMENT_OPTION,
    PAYMENT_OPTION_KIND
)];

const CHARGE_SERVICE_PARTICLES: [Particle<'static>; 6] = [
    once!(SERVICE_ID, UNSIGNED_SHORT_KIND),
    perhaps!(SERVICE_NAME, TEXT32_KIND),
    once!(SERVICE_CATEGORY, SERVICE_CATEGORY_KIND),
    perhaps!(SERVICE_SCOPE, TEXT64_KIND),
    once!(FREE_SERVICE, BOOLEAN_KIND),
    once!(
        SUPPORTED_ENERGY_TRANSFER_MODE,
        SUPPORTED_ENERGY_TRANSFER_MODE_KIND
    ),
];

const SUPPORTED_ENERGY_TRANSFER_MODE_PARTICLES: [Particle<'static>; 1] = [up_to!(
    6,
    ENERGY_TRANSFER_MODE,
    ENERGY_TRANSFER_MODE_KIND
)];

const SERVICE_LIST_PARTICLES: [Particle<'static>; 1] = [up_to!(8, SERVICE, SERVICE_KIND)];

const SERVICE_PARTICLES: [Particle<'static>; 5] = [
    once!(SERVICE_ID, UNSIGNED_SHORT_KIND),
    perhaps!(SERVICE_NAME, TEXT32_KIND),
    once!(SERVICE_CATEGORY, SERVICE_CATEGORY_KIND),
    perhaps!(SERVICE_SCOPE, TEXT64_KIND),
    once!(FREE_SERVICE, BOOLEAN_KIND),
];

const SERVICE_DETAIL_REQ_PARTICLES: [Particle<'static>; 1] = [once!(
    SERVICE_ID,
    UNSIGNED_SHORT_KIND
)];

const SERVICE_DETAIL_RES_PARTICLES: [Particle<'static>; 3] = [
    once!(RESPONSE_CODE, RESPONSE_CODE_KIND),
    once!(SERVICE_ID, UNSIGNED_SHORT_KIND),
    perhaps!(SERVICE_PARAMETER_LIST, SERVICE_PARAMETER_LIST_KIND),
];

const SERVICE_PARAMETER_LIST_PARTICLES: [Particle<'static>; 1] = [at_least_one!(
    16,
    PARAMETER_SET,
    PARAMETER_SET_KIND
)];

const PARAMETER_SET_PARTICLES: [Particle<'static>; 2] = [
    once!(PARAMETER_SET_ID, SHORT_KIND),
    up_to!(16, PARAMETER, PARAMETER_KIND),
];

const PARAMETER_ATTRIBUTES: [AttributeOf; 1] = [AttributeOf {
    name: NAME,
    kind: TEXT64_KIND,
    required: true,
}];

const PARAMETER_PARTICLES: [Particle<'static>; 1] = [one_of!(
    1,
    [
        member!(Taken, BOOL_VALUE, BOOLEAN_KIND),
        member!(Taken, BYTE_VALUE, BYTE_KIND),
        member!(Taken, SHORT_VALUE, SHORT_KIND),
        member!(Taken, INT_VALUE, INT_KIND),
        member!(Taken, PHYSICAL_VALUE, PHYSICAL_VALUE_KIND),
        member!(Taken, STRING_VALUE, TEXT64_KIND)
    ]
)];

const PAYMENT_SERVICE_SELECTION_REQ_PARTICLES: [Particle<'static>; 2] = [
    once!(SELECTED_PAYMENT_OPTION, PAYMENT_OPTION_KIND),
    once!(SELECTED_SERVICE_LIST, SELECTED_SERVICE_LIST_KIND),
];

const SELECTED_SERVICE_LIST_PARTICLES: [Particle<'static>; 1] = [up_to!(
    16,
    SELECTED_SERVICE,
    SELECTED_SERVICE_KIND
)];

const SELECTED_SERVICE_PARTICLES: [Particle<'static>; 2] = [
    once!(SERVICE_ID, UNSIGNED_SHORT_KIND),
    perhaps!(PARAMETER_SET_ID, SHORT_KIND),
];

const PAYMENT_SERVICE_SELECTION_RES_PARTICLES: [Particle<'static>; 1] = [once!(
    RESPONSE_CODE,
    RESPONSE_CODE_KIND
)];

const AUTHORIZATION_REQ_ATTRIBUTES: [AttributeOf; 1] = [AttributeOf {
    name: ID,
    kind: TEXT64_KIND,
    required: false,
}];

const AUTHORIZATION_REQ_PARTICLES: [Particle<'static>; 1] = [perhaps!(
    GEN_CHALLENGE,
    BINARY16_KIND
)];

const AUTHORIZATION_RES_PARTICLES: [Particle<'static>; 2] = [
    once!(RESPONSE_CODE, RESPONSE_CODE_KIND),
    once!(EVSE_PROCESSING, EVSE_PROCESSING_KIND),
];

const SESSION_STOP_REQ_PARTICLES: [Particle<'static>; 1] = [once!(
    CHARGING_SESSION,
    CHARGING_SESSION_KIND
)];

const SESSION_STOP_RES_PARTICLES: [Particle<'static>; 1] = [once!(
    RESPONSE_CODE,
    RESPONSE_CODE_KIND
)];

const CHARGE_PARAMETER_DISCOVERY_REQ_PARTICLES: [Particle<'static>; 3] = [
    perhaps!(MAX_ENTRIES_SA_SCHEDULE_TUPLE, UNSIGNED_SHORT_KIND),
    once!(REQUESTED_ENERGY_TRANSFER_MODE, ENERGY_TRANSFER_MODE_KIND),
    one_of!(
        1,
        [
            member!(Taken, AC_EV_CHARGE_PARAMETER, AC_EV_CHARGE_PARAMETER_KIND),
            member!(Taken, DC_EV_CHARGE_PARAMETER, DC_EV_CHARGE_PARAMETER_KIND),
            member!(Abstract, EV_CHARGE_PARAMETER, EMPTY_KIND)
        ]
    ),
];

const AC_EV_CHARGE_PARAMETER_PARTICLES: [Particle<'static>; 5] = [
    perhaps!(DEPARTURE_TIME, UNSIGNED_INT_KIND),
    once!(E_AMOUNT, PHYSICAL_VALUE_KIND),
    once!(EV_MAX_VOLTAGE, PHYSICAL_VALUE_KIND),
    once!(EV_MAX_CURRENT, PHYSICAL_VALUE_KIND),
    once!(EV_MIN_CURRENT, PHYSICAL_VALUE_KIND),
];

const DC_EV_CHARGE_PARAMETER_PARTICLES: [Particle<'static>; 9] = [
    perhaps!(DEPARTURE_TIME, UNSIGNED_INT_KIND),
    once!(DC_EV_STATUS, DC_EV_STATUS_KIND),
    once!(EV_MAXIMUM_CURRENT_LIMIT, PHYSICAL_VALUE_KIND),
    perhaps!(EV_MAXIMUM_POWER_LIMIT, PHYSICAL_VALUE_KIND),
    once!(EV_MAXIMUM_VOLTAGE_LIMIT, PHYSICAL_VALUE_KIND),
    perhaps!(EV_ENERGY_CAPACITY, PHYSICAL_VALUE_KIND),
    perhaps!(EV_ENERGY_REQUEST, PHYSICAL_VALUE_KIND),
    perhaps!(FULL_SOC, PERCENT_KIND),
    perhaps!(BULK_SOC, PERCENT_KIND),
];

const CHARGE_PARAMETER_DISCOVERY_RES_PARTICLES: [Particle<'static>; 4] = [
    once!(RESPONSE_CODE, RESPONSE_CODE_KIND),
    once!(EVSE_PROCESSING, EVSE_PROCESSING_KIND),
    one_of!(
        0,
        [
            member!(Taken, SA_SCHEDULE_LIST, SA_SCHEDULE_LIST_KIND),
            member!(Abstract, SA_SCHEDULES, EMPTY_KIND)
        ]
    ),
    one_of!(
        1,
        [
            member!(
                Taken,
                AC_EVSE_CHARGE_PARAMETER,
                AC_EVSE_CHARGE_PARAMETER_KIND
            ),
            member!(
                Taken,
                DC_EVSE_CHARGE_PARAMETER,
                DC_EVSE_CHARGE_PARAMETER_KIND
            ),
            member!(Abstract, EVSE_CHARGE_PARAMETER, EMPTY_KIND)
        ]
    ),
];

const SA_SCHEDULE_LIST_PARTICLES: [Particle<'static>; 1] = [up_to!(
    3,
    SA_SCHEDULE_TUPLE,
    SA_SCHEDULE_TUPLE_KIND
)];

const SA_SCHEDULE_TUPLE_PARTICLES: [Particle<'static>; 3] = [
    once!(SA_SCHEDULE_TUPLE_ID, TUPLE_ID_KIND),
    once!(P_MAX_SCHEDULE, P_MAX_SCHEDULE_KIND),
    left_out!(SALES_TARIFF),
];

const P_MAX_SCHEDULE_PARTICLES: [Particle<'static>; 1] = [at_least_one!(
    128,
    P_MAX_SCHEDULE_ENTRY,
    P_MAX_SCHEDULE_ENTRY_KIND
)];

const P_MAX_SCHEDULE_ENTRY_PARTICLES: [Particle<'static>; 2] = [
    one_of!(
        1,
        [
            member!(Taken, RELATIVE_TIME_INTERVAL, RELATIVE_TIME_INTERVAL_KIND),
            member!(Abstract, TIME_INTERVAL, EMPTY_KIND)
        ]
    ),
    once!(P_MAX, PHYSICAL_VALUE_KIND),
];

const RELATIVE_TIME_INTERVAL_PARTICLES: [Particle<'static>; 2] = [
    once!(START, INTERVAL_START_KIND),
    perhaps!(DURATION, INTERVAL_DURATION_KIND),
];

const AC_EVSE_CHARGE_PARAMETER_PARTICLES: [Particle<'static>; 3] = [
    once!(AC_EVSE_STATUS, AC_EVSE_STATUS_KIND),
    once!(EVSE_NOMINAL_VOLTAGE, PHYSICAL_VALUE_KIND),
    once!(EVSE_MAX_CURRENT, PHYSICAL_VALUE_KIND),
];

const DC_EVSE_CHARGE_PARAMETER_PARTICLES: [Particle<'static>; 9] = [
    once!(DC_EVSE_STATUS, DC_EVSE_STATUS_KIND),
    once!(EVSE_MAXIMUM_CURRENT_LIMIT, PHYSICAL_VALUE_KIND),
    once!(EVSE_MAXIMUM_POWER_LIMIT, PHYSICAL_VALUE_KIND),
    once!(EVSE_MAXIMUM_VOLTAGE_LIMIT, PHYSICAL_VALUE_KIND),
    once!(EVSE_MINIMUM_CURRENT_LIMIT, PHYSICAL_VALUE_KIND),
    once!(EVSE_MINIMUM_VOLTAGE_LIMIT, PHYSICAL_VALUE_KIND),
    perhaps!(EVSE_CURRENT_REGULATION_TOLERANCE, PHYSICAL_VALUE_KIND),
    once!(EVSE_PEAK_CURRENT_RIPPLE, PHYSICAL_VALUE_KIND),
    perhaps!(EVSE_ENERGY_TO_BE_DELIVERED, PHYSICAL_VALUE_KIND),
];

const POWER_DELIVERY_REQ_PARTICLES: [Particle<'static>; 4] = [
    once!(CHARGE_PROGRESS, CHARGE_PROGRESS_KIND),
    once!(SA_SCHEDULE_TUPLE_ID, TUPLE_ID_KIND),
    perhaps!(CHARGING_PROFILE, CHARGING_PROFILE_KIND),
    one_of!(
        0,
        [
            member!(
                Taken,
                DC_EV_POWER_DELIVERY_PARAMETER,
                DC_EV_POWER_DELIVERY_PARAMETER_KIND
            ),
            member!(Abstract, EV_POWER_DELIVERY_PARAMETER, EMPTY_KIND)
        ]
    ),
];

const CHARGING_PROFILE_PARTICLES: [Particle<'static>; 1] = [up_to!(
    24,
    PROFILE_ENTRY,
    PROFILE_ENTRY_KIND
)];

const PROFILE_ENTRY_PARTICLES: [Particle<'static>; 3] = [
    once!(CHARGING_PROFILE_ENTRY_START, UNSIGNED_INT_KIND),
    once!(CHARGING_PROFILE_ENTRY_MAX_POWER, PHYSICAL_VALUE_KIND),
    perhaps!(
        CHARGING_PROFILE_ENTRY_MAX_NUMBER_OF_PHASES_IN_USE,
        PHASES_KIND
    ),
];

const DC_EV_POWER_DELIVERY_PARAMETER_PARTICLES: [Particle<'static>; 3] = [
    once!(DC_EV_STATUS, DC_EV_STATUS_KIND),
    perhaps!(BULK_CHARGING_COMPLETE, BOOLEAN_KIND),
    once!(CHARGING_COMPLETE, BOOLEAN_KIND),
];

const POWER_DELIVERY_RES_PARTICLES: [Particle<'static>; 2] = [
    once!(RESPONSE_CODE, RESPONSE_CODE_KIND),
    one_of!(
        1,
        [
            member!(Taken, AC_EVSE_STATUS, AC_EVSE_STATUS_KIND),
            member!(Taken, DC_EVSE_STATUS, DC_EVSE_STATUS_KIND),
            member!(Abstract, EVSE_STATUS, EMPTY_KIND)
        ]
    ),
];

const CHARGING_STATUS_RES_PARTICLES: [Particle<'static>; 7] = [
    once!(RESPONSE_CODE, RESPONSE_CODE_KIND),
    once!(EVSEID, TEXT37_KIND),
    once!(SA_SCHEDULE_TUPLE_ID, TUPLE_ID_KIND),
    perhaps!(EVSE_MAX_CURRENT, PHYSICAL_VALUE_KIND),
    perhaps!(METER_INFO, METER_INFO_KIND),
    perhaps!(RECEIPT_REQUIRED, BOOLEAN_KIND),
    once!(AC_EVSE_STATUS, AC_EVSE_STATUS_KIND),
];

const CABLE_CHECK_REQ_PARTICLES: [Particle<'static>; 1] = [once!(DC_EV_STATUS, DC_EV_STATUS_KIND)];

const CABLE_CHECK_RES_PARTICLES: [Particle<'static>; 3] = [
    once!(RESPONSE_CODE, RESPONSE_CODE_KIND),
    once!(DC_EVSE_STATUS, DC_EVSE_STATUS_KIND),
    once!(EVSE_PROCESSING, EVSE_PROCESSING_KIND),
];

const PRE_CHARGE_REQ_PARTICLES: [Particle<'static>; 3] = [
    once!(DC_EV_STATUS, DC_EV_STATUS_KIND),
    once!(EV_TARGET_VOLTAGE, PHYSICAL_VALUE_KIND),
    once!(EV_TARGET_CURRENT, PHYSICAL_VALUE_KIND),
];

const PRE_CHARGE_RES_PARTICLES: [Particle<'static>; 3] = [
    once!(RESPONSE_CODE, RESPONSE_CODE_KIND),
    once!(DC_EVSE_STATUS, DC_EVSE_STATUS_KIND),
    once!(EVSE_PRESENT_VOLTAGE, PHYSICAL_VALUE_KIND),
];

const CURRENT_DEMAND_REQ_PARTICLES: [Particle<'static>; 10] = [
    once!(DC_EV_STATUS, DC_EV_STATUS_KIND),
    once!(EV_TARGET_CURRENT, PHYSICAL_VALUE_KIND),
    perhaps!(EV_MAXIMUM_VOLTAGE_LIMIT, PHYSICAL_VALUE_KIND),
    perhaps!(EV_MAXIMUM_CURRENT_LIMIT, PHYSICAL_VALUE_KIND),
    perhaps!(EV_MAXIMUM_POWER_LIMIT, PHYSICAL_VALUE_KIND),
    perhaps!(BULK_CHARGING_COMPLETE, BOOLEAN_KIND),
    once!(CHARGING_COMPLETE, BOOLEAN_KIND),
    perhaps!(REMAINING_TIME_TO_FULL_SO_C, PHYSICAL_VALUE_KIND),
    perhaps!(REMAINING_TIME_TO_BULK_SO_C, PHYSICAL_VALUE_KIND),
    once!(EV_TARGET_VOLTAGE, PHYSICAL_VALUE_KIND),
];

const CURRENT_DEMAND_RES_PARTICLES: [Particle<'static>; 14] = [
    once!(RESPONSE_CODE, RESPONSE_CODE_KIND),
    once!(DC_EVSE_STATUS, DC_EVSE_STATUS_KIND),
    once!(EVSE_PRESENT_VOLTAGE, PHYSICAL_VALUE_KIND),
    once!(EVSE_PRESENT_CURRENT, PHYSICAL_VALUE_KIND),
    once!(EVSE_CURRENT_LIMIT_ACHIEVED, BOOLEAN_KIND),
    once!(EVSE_VOLTAGE_LIMIT_ACHIEVED, BOOLEAN_KIND),
    once!(EVSE_POWER_LIMIT_ACHIEVED, BOOLEAN_KIND),
    perhaps!(EVSE_MAXIMUM_VOLTAGE_LIMIT, PHYSICAL_VALUE_KIND),
    perhaps!(EVSE_MAXIMUM_CURRENT_LIMIT, PHYSICAL_VALUE_KIND),
    perhaps!(EVSE_MAXIMUM_POWER_LIMIT, PHYSICAL_VALUE_KIND),
    once!(EVSEID, TEXT37_KIND),
    once!(SA_SCHEDULE_TUPLE_ID, TUPLE_ID_KIND),
    perhaps!(METER_INFO, METER_INFO_KIND),
    perhaps!(RECEIPT_REQUIRED, BOOLEAN_KIND),
];

const WELDING_DETECTION_REQ_PARTICLES: [Particle<'static>; 1] = [once!(
    DC_EV_STATUS,
    DC_EV_STATUS_KIND
)];

const WELDING_DETECTION_RES_PARTICLES: [Particle<'static>; 3] = [
    once!(RESPONSE_CODE, RESPONSE_CODE_KIND),
    once!(DC_EVSE_STATUS, DC_EVSE_STATUS_KIND),
    once!(EVSE_PRESENT_VOLTAGE, PHYSICAL_VALUE_KIND),
];

static SIMPLE: [Declaration<'static>; 35] = [
    Declaration::Simple(Datatype::Bool),
    Declaration::Simple(Datatype::Bounded {
        least: -128,
        count: 256,
    }),
    Declaration::Simple(Datatype::Signed {
        least: -32_768,
        most: 32_767,
    }),
    Declaration::Simple(Datatype::Signed {
        least: -2_147_483_648,
        most: 2_147_483_647,
    }),
    Declaration::Simple(Datatype::Signed {
        least: -9_223_372_036_854_775_808,
        most: 9_223_372_036_854_775_807,
    }),
    Declaration::Simple(Datatype::Unsigned { most: 65_535 }),
    Declaration::Simple(Datatype::Unsigned {
        most: 4_294_967_295,
    }),
    Declaration::Simple(Datatype::Unsigned {
        most: 18_446_744_073_709_551_615,
    }),
    Declaration::Simple(Datatype::Bounded {
        least: -3,
        count: 7,
    }),
    Declaration::Simple(Datatype::Bounded {
        least: 0,
        count: 101,
    }),
    Declaration::Simple(Datatype::Bounded {
        least: 1,
        count: 255,
    }),
    Declaration::Simple(Datatype::Bounded { least: 1, count: 3 }),
    Declaration::Simple(Datatype::Unsigned { most: 16_777_214 }),
    Declaration::Simple(Datatype::Unsigned { most: 86_400 }),
    Declaration::Simple(Datatype::Text { most: 32 }),
    Declaration::Simple(Datatype::Text { most: 37 }),
    Declaration::Simple(Datatype::Text { most: 64 }),
    Declaration::Simple(Datatype::Binary { most: 6 }),
    Declaration::Simple(Datatype::Binary { most: 8 }),
    Declaration::Simple(Datatype::Binary { most: 16 }),
    Declaration::Simple(Datatype::Binary { most: 64 }),
    Declaration::Simple(Datatype::Named { count: 3 }),
    Declaration::Simple(Datatype::Named { count: 7 }),
    Declaration::Simple(Datatype::Named { count: 12 }),
    Declaration::Simple(Datatype::Named { count: 3 }),
    Declaration::Simple(Datatype::Named { count: 5 }),
    Declaration::Simple(Datatype::Named { count: 12 }),
    Declaration::Simple(Datatype::Named { count: 26 }),
    Declaration::Simple(Datatype::Named { count: 4 }),
    Declaration::Simple(Datatype::Named { count: 2 }),
    Declaration::Simple(Datatype::Named { count: 6 }),
    Declaration::Simple(Datatype::Named { count: 3 }),
    Declaration::Simple(Datatype::Named { count: 2 }),
    Declaration::Simple(Datatype::Named { count: 3 }),
    Declaration::Complex {
        attributes: &[],
        particles: &[],
    },
];

static FRAME: [Declaration<'static>; 9] = [
    Declaration::Complex {
        attributes: &[],
        particles: &V2G_MESSAGE_PARTICLES,
    },
    Declaration::Complex {
        attributes: &[],
        particles: &HEADER_PARTICLES,
    },
    Declaration::Complex {
        attributes: &[],
        particles: &NOTIFICATION_PARTICLES,
    },
    Declaration::Complex {
        attributes: &[],
        particles: &BODY_PARTICLES,
    },
    Declaration::Complex {
        attributes: &[],
        particles: &PHYSICAL_VALUE_PARTICLES,
    },
    Declaration::Complex {
        attributes: &[],
        particles: &DC_EV_STATUS_PARTICLES,
    },
    Declaration::Complex {
        attributes: &[],
        particles: &AC_EVSE_STATUS_PARTICLES,
    },
    Declaration::Complex {
        attributes: &[],
        particles: &DC_EVSE_STATUS_PARTICLES,
    },
    Declaration::Complex {
        attributes: &[],
        particles: &METER_INFO_PARTICLES,
    },
];

static SETUP: [Declaration<'static>; 9] = [
    Declaration::Complex {
        attributes: &[],
        particles: &SESSION_SETUP_REQ_PARTICLES,
    },
    Declaration::Complex {
        attributes: &[],
        particles: &SESSION_SETUP_RES_PARTICLES,
    },
    Declaration::Complex {
        attributes: &[],
        particles: &SERVICE_DISCOVERY_REQ_PARTICLES,
    },
    Declaration::Complex {
        attributes: &[],
        particles: &SERVICE_DISCOVERY_RES_PARTICLES,
    },
    Declaration::Complex {
        attributes: &[],
        particles: &PAYMENT_OPTION_LIST_PARTICLES,
    },
    Declaration::Complex {
        attributes: &[],
        particles: &CHARGE_SERVICE_PARTICLES,
    },
    Declaration::Complex {
        attributes: &[],
        particles: &SUPPORTED_ENERGY_TRANSFER_MODE_PARTICLES,
    },
    Declaration::Complex {
        attributes: &[],
        particles: &SERVICE_LIST_PARTICLES,
    },
    Declaration::Complex {
        attributes: &[],
        particles: &SERVICE_PARTICLES,
    },
];

static SELECTION: [Declaration<'static>; 13] = [
    Declaration::Complex {
        attributes: &[],
        particles: &SERVICE_DETAIL_REQ_PARTICLES,
    },
    Declaration::Complex {
        attributes: &[],
        particles: &SERVICE_DETAIL_RES_PARTICLES,
    },
    Declaration::Complex {
        attributes: &[],
        particles: &SERVICE_PARAMETER_LIST_PARTICLES,
    },
    Declaration::Complex {
        attributes: &[],
        particles: &PARAMETER_SET_PARTICLES,
    },
    Declaration::Complex {
        attributes: &PARAMETER_ATTRIBUTES,
        particles: &PARAMETER_PARTICLES,
    },
    Declaration::Complex {
        attributes: &[],
        particles: &PAYMENT_SERVICE_SELECTION_REQ_PARTICLES,
    },
    Declaration::Complex {
        attributes: &[],
        particles: &SELECTED_SERVICE_LIST_PARTICLES,
    },
    Declaration::Complex {
        attributes: &[],
        particles: &SELECTED_SERVICE_PARTICLES,
    },
    Declaration::Complex {
        attributes: &[],
        particles: &PAYMENT_SERVICE_SELECTION_RES_PARTICLES,
    },
    Declaration::Complex {
        attributes: &AUTHORIZATION_REQ_ATTRIBUTES,
        particles: &AUTHORIZATION_REQ_PARTICLES,
    },
    Declaration::Complex {
        attributes: &[],
        particles: &AUTHORIZATION_RES_PARTICLES,
    },
    Declaration::Complex {
        attributes: &[],
        particles: &SESSION_STOP_REQ_PARTICLES,
    },
    Declaration::Complex {
        attributes: &[],
        particles: &SESSION_STOP_RES_PARTICLES,
    },
];

static PARAMETERS: [Declaration<'static>; 4] = [
    Declaration::Complex {
        attributes: &[],
        particles: &CHARGE_PARAMETER_DISCOVERY_REQ_PARTICLES,
    },
    Declaration::Complex {
        attributes: &[],
        particles: &AC_EV_CHARGE_PARAMETER_PARTICLES,
    },
    Declaration::Complex {
        attributes: &[],
        particles: &DC_EV_CHARGE_PARAMETER_PARTICLES,
    },
    Declaration::Complex {
        attributes: &[],
        particles: &CHARGE_PARAMETER_DISCOVERY_RES_PARTICLES,
    },
];

static SCHEDULES: [Declaration<'static>; 7] = [
    Declaration::Complex {
        attributes: &[],
        particles: &SA_SCHEDULE_LIST_PARTICLES,
    },
    Declaration::Complex {
        attributes: &[],
        particles: &SA_SCHEDULE_TUPLE_PARTICLES,
    },
    Declaration::Complex {
        attributes: &[],
        particles: &P_MAX_SCHEDULE_PARTICLES,
    },
    Declaration::Complex {
        attributes: &[],
        particles: &P_MAX_SCHEDULE_ENTRY_PARTICLES,
    },
    Declaration::Complex {
        attributes: &[],
        particles: &RELATIVE_TIME_INTERVAL_PARTICLES,
    },
    Declaration::Complex {
        attributes: &[],
        particles: &AC_EVSE_CHARGE_PARAMETER_PARTICLES,
    },
    Declaration::Complex {
        attributes: &[],
        particles: &DC_EVSE_CHARGE_PARAMETER_PARTICLES,
    },
];

static DELIVERY: [Declaration<'static>; 6] = [
    Declaration::Complex {
        attributes: &[],
        particles: &POWER_DELIVERY_REQ_PARTICLES,
    },
    Declaration::Complex {
        attributes: &[],
        particles: &CHARGING_PROFILE_PARTICLES,
    },
    Declaration::Complex {
        attributes: &[],
        particles: &PROFILE_ENTRY_PARTICLES,
    },
    Declaration::Complex {
        attributes: &[],
        particles: &DC_EV_POWER_DELIVERY_PARAMETER_PARTICLES,
    },
    Declaration::Complex {
        attributes: &[],
        particles: &POWER_DELIVERY_RES_PARTICLES,
    },
    Declaration::Complex {
        attributes: &[],
        particles: &CHARGING_STATUS_RES_PARTICLES,
    },
];

static CHARGING: [Declaration<'static>; 8] = [
    Declaration::Complex {
        attributes: &[],
        particles: &CABLE_CHECK_REQ_PARTICLES,
    },
    Declaration::Complex {
        attributes: &[],
        particles: &CABLE_CHECK_RES_PARTICLES,
    },
    Declaration::Complex {
        attributes: &[],
        particles: &PRE_CHARGE_REQ_PARTICLES,
    },
    Declaration::Complex {
        attributes: &[],
        particles: &PRE_CHARGE_RES_PARTICLES,
    },
    Declaration::Complex {
        attributes: &[],
        particles: &CURRENT_DEMAND_REQ_PARTICLES,
    },
    Declaration::Complex {
        attributes: &[],
        particles: &CURRENT_DEMAND_RES_PARTICLES,
    },
    Declaration::Complex {
        attributes: &[],
        particles: &WELDING_DETECTION_REQ_PARTICLES,
    },
    Declaration::Complex {
        attributes: &[],
        particles: &WELDING_DETECTION_RES_PARTICLES,
    },
];

static ROOTS: [RootOf; 1] = [RootOf {
    number: 76,
    name: V2G_MESSAGE,
    kind: V2G_MESSAGE_KIND,
}];

fn simple() -> &'static [Declaration<'static>]
    ensures { plain_kinds result.now ≡ declared.simple }
{
    &SIMPLE
}

fn frame() -> &'static [Declaration<'static>]
    ensures { plain_kinds result.now ≡ declared.frame }
{
    &FRAME
}

fn setup() -> &'static [Declaration<'static>]
    ensures { plain_kinds result.now ≡ declared.setup }
{
    &SETUP
}

fn selection() -> &'static [Declaration<'static>]
    ensures { plain_kinds result.now ≡ declared.selection }
{
    &SELECTION
}

fn parameters() -> &'static [Declaration<'static>]
    ensures { plain_kinds result.now ≡ declared.parameters }
{
    &PARAMETERS
}

fn schedules() -> &'static [Declaration<'static>]
    ensures { plain_kinds result.now ≡ declared.schedules }
{
    &SCHEDULES
}

fn delivery() -> &'static [Declaration<'static>]
    ensures { plain_kinds result.now ≡ declared.delivery }
{
    &DELIVERY
}

fn charging() -> &'static [Declaration<'static>]
    ensures { plain_kinds result.now ≡ declared.charging }
{
    &CHARGING
}

/// Puts the first parts of the declarations.
fn put_first(kinds: &mut Vec<Declaration<'static>>) -> Result<(), AllocError>
    ensures { IfOk result (λ _. plain_kinds kinds.new.items ≡ plain_kinds kinds.old.items ++ (declared.simple ++ declared.frame ++ declared.setup ++ declared.selection)) }
{
    kinds.extend_from_slice(simple())?;
    kinds.extend_from_slice(frame())?;
    kinds.extend_from_slice(setup())?;
    kinds.extend_from_slice(selection())?;
    Ok(())
}

/// Puts the last parts of the declarations.
fn put_last(kinds: &mut Vec<Declaration<'static>>) -> Result<(), AllocError>
    ensures { IfOk result (λ _. plain_kinds kinds.new.items ≡ plain_kinds kinds.old.items ++ (declared.parameters ++ declared.schedules ++ declared.delivery ++ declared.charging)) }
{
    kinds.extend_from_slice(parameters())?;
    kinds.extend_from_slice(schedules())?;
    kinds.extend_from_slice(delivery())?;
    kinds.extend_from_slice(charging())?;
    Ok(())
}

fn names() -> &'static [&'static str]
    ensures { map (λ t. t.now) result.now ≡ declared.names }
{
    &NAMES
}

fn values() -> &'static [&'static [&'static str]]
    ensures { map (λ l. map (λ t. t.now) l.now) result.now ≡ declared.values }
{
    &VALUES
}

/// The declarations of the messages of ISO 15118-2.
#[derive(Drop)]
pub struct IsoSchema {
    kinds: Vec<Declaration<'static>>,
    ghost kinds_are: { plain_kinds kinds.items ≡ declared.kinds },
}

impl IsoSchema {
    /// The declarations, each part behind the other.
    pub fn make(alloc: Global) -> Result<IsoSchema, AllocError> {
        let mut kinds: Vec<Declaration<'static>> = Vec::new(alloc);
        put_first(&mut kinds)?;
        put_last(&mut kinds)?;
        Ok(IsoSchema { kinds })
    }

    /// The schema.
    pub fn schema(&self) -> Schema<'_>
        ensures { schema_of result ≡ declared.schema }
    {
        Schema {
            kinds: self.kinds.as_slice(),
            names: names(),
            values: values(),
            root_bits: 7,
            roots: &ROOTS,
        }
    }
}
