//! The declarations of the messages of DIN SPEC 70121 as tables.

ghost use Rattle.std.specs.Prelude.{◌≡◌, ◌++◌, IfOk, map};
ghost use Rattle.exi_schema.specs.Plain.{plain_kinds};
ghost use Rattle.exi_schema.specs.Told.{schema_of};
ghost use Rattle.din_schema.specs.Declarations as declared;

use crate::kinds::*;
use crate::names::*;
use exi_schema::{
    AttributeOf, Datatype, Declaration, Member, MemberStanding, Particle, RootOf, Schema,
};
use std::alloc::{AllocError, Global};

static NAMES: [&'static str; 135] = [
    "V2G_Message",
    "Header",
    "Body",
    "SessionID",
    "Notification",
    "Signature",
    "FaultCode",
    "FaultMsg",
    "BodyElement",
    "CableCheckReq",
    "CableCheckRes",
    "CertificateInstallationReq",
    "CertificateInstallationRes",
    "CertificateUpdateReq",
    "CertificateUpdateRes",
    "ChargeParameterDiscoveryReq",
    "ChargeParameterDiscoveryRes",
    "ChargingStatusReq",
    "ChargingStatusRes",
    "ContractAuthenticationReq",
    "ContractAuthenticationRes",
    "CurrentDemandReq",
    "CurrentDemandRes",
    "MeteringReceiptReq",
    "MeteringReceiptRes",
    "PaymentDetailsReq",
    "PaymentDetailsRes",
    "PowerDeliveryReq",
    "PowerDeliveryRes",
    "PreChargeReq",
    "PreChargeRes",
    "ServiceDetailReq",
    "ServiceDetailRes",
    "ServiceDiscoveryReq",
    "ServiceDiscoveryRes",
    "ServicePaymentSelectionReq",
    "ServicePaymentSelectionRes",
    "SessionSetupReq",
    "SessionSetupRes",
    "SessionStopReq",
    "SessionStopRes",
    "WeldingDetectionReq",
    "WeldingDetectionRes",
    "Multiplier",
    "Unit",
    "Value",
    "EVReady",
    "EVCabinConditioning",
    "EVRESSConditioning",
    "EVErrorCode",
    "EVRESSSOC",
    "EVSEIsolationStatus",
    "EVSEStatusCode",
    "NotificationMaxDelay",
    "EVSENotification",
    "EVCCID",
    "ResponseCode",
    "EVSEID",
    "DateTimeNow",
    "ServiceScope",
    "ServiceCategory",
    "PaymentOptions",
    "ChargeService",
    "ServiceList",
    "PaymentOption",
    "ServiceTag",
    "FreeService",
    "EnergyTransferType",
    "ServiceID",
    "ServiceName",
    "Service",
    "SelectedPaymentOption",
    "SelectedServiceList",
    "SelectedService",
    "ParameterSetID",
    "Id",
    "GenChallenge",
    "EVSEProcessing",
    "EVRequestedEnergyTransferType",
    "AC_EVChargeParameter",
    "DC_EVChargeParameter",
    "EVChargeParameter",
    "DC_EVStatus",
    "EVMaximumCurrentLimit",
    "EVMaximumPowerLimit",
    "EVMaximumVoltageLimit",
    "EVEnergyCapacity",
    "EVEnergyRequest",
    "FullSOC",
    "BulkSOC",
    "SAScheduleList",
    "SASchedules",
    "AC_EVSEChargeParameter",
    "DC_EVSEChargeParameter",
    "EVSEChargeParameter",
    "SAScheduleTuple",
    "SAScheduleTupleID",
    "PMaxSchedule",
    "SalesTariff",
    "PMaxScheduleID",
    "PMaxScheduleEntry",
    "RelativeTimeInterval",
    "TimeInterval",
    "PMax",
    "start",
    "duration",
    "DC_EVSEStatus",
    "EVSEMaximumCurrentLimit",
    "EVSEMaximumPowerLimit",
    "EVSEMaximumVoltageLimit",
    "EVSEMinimumCurrentLimit",
    "EVSEMinimumVoltageLimit",
    "EVSECurrentRegulationTolerance",
    "EVSEPeakCurrentRipple",
    "EVSEEnergyToBeDelivered",
    "ReadyToChargeState",
    "ChargingProfile",
    "DC_EVPowerDeliveryParameter",
    "EVPowerDeliveryParameter",
    "ProfileEntry",
    "ChargingProfileEntryStart",
    "ChargingProfileEntryMaxPower",
    "BulkChargingComplete",
    "ChargingComplete",
    "AC_EVSEStatus",
    "EVSEStatus",
    "EVTargetCurrent",
    "RemainingTimeToFullSoC",
    "RemainingTimeToBulkSoC",
    "EVTargetVoltage",
    "EVSEPresentVoltage",
    "EVSEPresentCurrent",
    "EVSECurrentLimitAchieved",
    "EVSEVoltageLimitAchieved",
    "EVSEPowerLimitAchieved",
];

const FAULT_CODE_VALUES: [&'static str; 3] = [
    "ParsingError",
    "NoTLSRootCertificatAvailable",
    "UnknownError",
];

const UNIT_SYMBOL_VALUES: [&'static str; 10] = [
    "h", "m", "s", "A", "Ah", "V", "VA", "W", "W_s", "Wh",
];

const EV_ERROR_CODE_VALUES: [&'static str; 12] = [
    "NO_ERROR",
    "FAILED_RESSTemperatureInhibit",
    "FAILED_EVShiftPosition",
    "FAILED_ChargerConnectorLockFault",
    "FAILED_EVRESSMalfunction",
    "FAILED_ChargingCurrentdifferential",
    "FAILED_ChargingVoltageOutOfRange",
    "Reserved_A",
    "Reserved_B",
    "Reserved_C",
    "FAILED_ChargingSystemIncompatibility",
    "NoData",
];

const ISOLATION_LEVEL_VALUES: [&'static str; 4] = ["Invalid", "Valid", "Warning", "Fault"];

const EVSE_STATUS_CODE_VALUES: [&'static str; 12] = [
    "EVSE_NotReady",
    "EVSE_Ready",
    "EVSE_Shutdown",
    "EVSE_UtilityInterruptEvent",
    "EVSE_IsolationMonitoringActive",
    "EVSE_EmergencyShutdown",
    "EVSE_Malfunction",
    "Reserved_8",
    "Reserved_9",
    "Reserved_A",
    "Reserved_B",
    "Reserved_C",
];

const EVSE_NOTIFICATION_VALUES: [&'static str; 3] = ["None", "StopCharging", "ReNegotiation"];

const RESPONSE_CODE_VALUES: [&'static str; 23] = [
    "OK",
    "OK_NewSessionEstablished",
    "OK_OldSessionJoined",
    "OK_CertificateExpiresSoon",
    "FAILED",
    "FAILED_SequenceError",
    "FAILED_ServiceIDInvalid",
    "FAILED_UnknownSession",
    "FAILED_ServiceSelectionInvalid",
    "FAILED_PaymentSelectionInvalid",
    "FAILED_CertificateExpired",
    "FAILED_SignatureError",
    "FAILED_NoCertificateAvailable",
    "FAILED_CertChainError",
    "FAILED_ChallengeInvalid",
    "FAILED_ContractCanceled",
    "FAILED_WrongChargeParameter",
    "FAILED_PowerDeliveryNotApplied",
    "FAILED_TariffSelectionInvalid",
    "FAILED_ChargingProfileInvalid",
    "FAILED_EVSEPresentVoltageToLow",
    "FAILED_MeteringSignatureNotValid",
    "FAILED_WrongEnergyTransferType",
];

const SERVICE_CATEGORY_VALUES: [&'static str; 4] = [
    "EVCharging",
    "Internet",
    "ContractCertificate",
    "OtherCustom",
];

const PAYMENT_OPTION_VALUES: [&'static str; 2] = ["Contract", "ExternalPayment"];

const SUPPORTED_ENERGY_TRANSFER_TYPE_VALUES: [&'static str; 10] = [
    "AC_single_phase_core",
    "AC_three_phase_core",
    "DC_core",
    "DC_extended",
    "DC_combo_core",
    "DC_dual",
    "AC_core1p_DC_extended",
    "AC_single_DC_core",
    "AC_single_phase_three_phase_core_DC_extended",
    "AC_core3p_DC_extended",
];

const EVSE_PROCESSING_VALUES: [&'static str; 2] = ["Finished", "Ongoing"];

const ENERGY_TRANSFER_MODE_VALUES: [&'static str; 6] = [
    "AC_single_phase_core",
    "AC_three_phase_core",
    "DC_core",
    "DC_extended",
    "DC_combo_core",
    "DC_unique",
];

const NONE: [&'static str; 0] = [];

static VALUES: [&'static [&'static str]; 70] = [
    &NONE,
    &NONE,
    &NONE,
    &NONE,
    &NONE,
    &NONE,
    &NONE,
    &NONE,
    &NONE,
    &NONE,
    &NONE,
    &NONE,
    &FAULT_CODE_VALUES,
    &UNIT_SYMBOL_VALUES,
    &EV_ERROR_CODE_VALUES,
    &ISOLATION_LEVEL_VALUES,
    &EVSE_STATUS_CODE_VALUES,
    &EVSE_NOTIFICATION_VALUES,
    &RESPONSE_CODE_VALUES,
    &SERVICE_CATEGORY_VALUES,
    &PAYMENT_OPTION_VALUES,
    &SUPPORTED_ENERGY_TRANSFER_TYPE_VALUES,
    &EVSE_PROCESSING_VALUES,
    &ENERGY_TRANSFER_MODE_VALUES,
    &NONE,
    &NONE,
    &NONE,
    &NONE,
    &NONE,
    &NONE,
    &NONE,
    &NONE,
    &NONE,
    &NONE,
    &NONE,
    &NONE,
    &NONE,
    &NONE,
    &NONE,
    &NONE,
    &NONE,
    &NONE,
    &NONE,
    &NONE,
    &NONE,
    &NONE,
    &NONE,
    &NONE,
    &NONE,
    &NONE,
    &NONE,
    &NONE,
    &NONE,
    &NONE,
    &NONE,
    &NONE,
    &NONE,
    &NONE,
    &NONE,
    &NONE,
    &NONE,
    &NONE,
    &NONE,
    &NONE,
    &NONE,
    &NONE,
    &NONE,
    &NONE,
    &NONE,
    &NONE,
];

/// An element of a particle.
macro_rules! member {
    ($standing:ident, $name:expr, $kind:expr) => {
        Member { name: $name, kind: $kind, standing: MemberStanding::$standing }
    };
}

/// One element, from so many to so many times.
macro_rules! copies {
    ($least:expr, $most:expr, $name:expr, $kind:expr) => {
        Particle { members: &[member!(Taken, $name, $kind)], least: $least, most: Some($most), profile: $most }
    };
}

macro_rules! once {
    ($name:expr, $kind:expr) => { copies!(1, 1, $name, $kind) };
}

macro_rules! perhaps {
    ($name:expr, $kind:expr) => { copies!(0, 1, $name, $kind) };
}

macro_rules! up_to {
    ($most:expr, $name:expr, $kind:expr) => { copies!(1, $most, $name, $kind) };
}

/// One element, once and more, of which so many are accepted.
macro_rules! at_least_one {
    ($profile:expr, $name:expr, $kind:expr) => {
        Particle { members: &[member!(Taken, $name, $kind)], least: 1, most: None, profile: $profile }
    };
}

/// An element that may be there in the standard, and is left out.
macro_rules! left_out {
    ($name:expr) => {
        Particle { members: &[member!(OutOfProfile, $name, EMPTY_KIND)], least: 0, most: Some(1), profile: 1 }
    };
}

/// One of these elements, or with 0 perhaps one.
macro_rules! one_of {
    ($least:expr, $members:expr) => {
        Particle { members: &$members, least: $least, most: Some(1), profile: 1 }
    };
}

const V2G_MESSAGE_PARTICLES: [Particle<'static>; 2] = [
    once!(HEADER, HEADER_KIND),
    once!(BODY, BODY_KIND),
];

const HEADER_PARTICLES: [Particle<'static>; 3] = [
    once!(SESSION_ID, BINARY8_KIND),
    perhaps!(NOTIFICATION, NOTIFICATION_KIND),
    left_out!(SIGNATURE),
];

const NOTIFICATION_PARTICLES: [Particle<'static>; 2] = [
    once!(FAULT_CODE, FAULT_CODE_KIND),
    perhaps!(FAULT_MSG, TEXT64_KIND),
];

const BODY_PARTICLES: [Particle<'static>; 1] = [one_of!(
    0,
    [
        member!(Abstract, BODY_ELEMENT, EMPTY_KIND),
        member!(Taken, CABLE_CHECK_REQ, CABLE_CHECK_REQ_KIND),
        member!(Taken, CABLE_CHECK_RES, CABLE_CHECK_RES_KIND),
        member!(OutOfProfile, CERTIFICATE_INSTALLATION_REQ, EMPTY_KIND),
        member!(OutOfProfile, CERTIFICATE_INSTALLATION_RES, EMPTY_KIND),
        member!(OutOfProfile, CERTIFICATE_UPDATE_REQ, EMPTY_KIND),
        member!(OutOfProfile, CERTIFICATE_UPDATE_RES, EMPTY_KIND),
        member!(
            Taken,
            CHARGE_PARAMETER_DISCOVERY_REQ,
            CHARGE_PARAMETER_DISCOVERY_REQ_KIND
        ),
        member!(
            Taken,
            CHARGE_PARAMETER_DISCOVERY_RES,
            CHARGE_PARAMETER_DISCOVERY_RES_KIND
        ),
        member!(OutOfProfile, CHARGING_STATUS_REQ, EMPTY_KIND),
        member!(OutOfProfile, CHARGING_STATUS_RES, EMPTY_KIND),
        member!(
            Taken,
            CONTRACT_AUTHENTICATION_REQ,
            CONTRACT_AUTHENTICATION_REQ_KIND
        ),
        member!(
            Taken,
            CONTRACT_AUTHENTICATION_RES,
            CONTRACT_AUTHENTICATION_RES_KIND
        ),
        member!(Taken, CURRENT_DEMAND_REQ, CURRENT_DEMAND_REQ_KIND),
        member!(Taken, CURRENT_DEMAND_RES, CURRENT_DEMAND_RES_KIND),
        member!(OutOfProfile, METERING_RECEIPT_REQ, EMPTY_KIND),
        member!(OutOfProfile, METERING_RECEIPT_RES, EMPTY_KIND),
        member!(OutOfProfile, PAYMENT_DETAILS_REQ, EMPTY_KIND),
        member!(OutOfProfile, PAYMENT_DETAILS_RES, EMPTY_KIND),
        member!(Taken, POWER_DELIVERY_REQ, POWER_DELIVERY_REQ_KIND),
        member!(Taken, POWER_DELIVERY_RES, POWER_DELIVERY_RES_KIND),
        member!(Taken, PRE_CHARGE_REQ, PRE_CHARGE_REQ_KIND),
        member!(Taken, PRE_CHARGE_RES, PRE_CHARGE_RES_KIND),
        member!(OutOfProfile, SERVICE_DETAIL_REQ, EMPTY_KIND),
        member!(OutOfProfile, SERVICE_DETAIL_RES, EMPTY_KIND),
        member!(Taken, SERVICE_DISCOVERY_REQ, SERVICE_DISCOVERY_REQ_KIND),
        member!(Taken, SERVICE_DISCOVERY_RES, SERVICE_DISCOVERY_RES_KIND),
        member!(
            Taken,
            SERVICE_PAYMENT_SELECTION_REQ,
            SERVICE_PAYMENT_SELECTION_REQ_KIND
        ),
        member!(
            Taken,
            SERVICE_PAYMENT_SELECTION_RES,
            SERVICE_PAYMENT_SELECTION_RES_KIND
        ),
        member!(Taken, SESSION_SETUP_REQ, SESSION_SETUP_REQ_KIND),
        member!(Taken, SESSION_SETUP_RES, SESSION_SETUP_RES_KIND),
        member!(Taken, SESSION_STOP_REQ, EMPTY_KIND),
        member!(Taken, SESSION_STOP_RES, SESSION_STOP_RES_KIND),
        member!(Taken, WELDING_DETECTION_REQ, WELDING_DETECTION_REQ_KIND),
        member!(Taken, WELDING_DETECTION_RES, WELDING_DETECTION_RES_KIND)
    ]
)];

const PHYSICAL_VALUE_PARTICLES: [Particle<'static>; 3] = [
    once!(MULTIPLIER, MULTIPLIER_KIND),
    perhaps!(UNIT, UNIT_SYMBOL_KIND),
    once!(VALUE, SHORT_KIND),
];

const DC_EV_STATUS_PARTICLES: [Particle<'static>; 5] = [
    once!(EV_READY, BOOLEAN_KIND),
    perhaps!(EV_CABIN_CONDITIONING, BOOLEAN_KIND),
    perhaps!(EVRESS_CONDITIONING, BOOLEAN_KIND),
    once!(EV_ERROR_CODE, EV_ERROR_CODE_KIND),
    once!(EVRESS_SOC, PERCENT_KIND),
];

const DC_EVSE_STATUS_PARTICLES: [Particle<'static>; 4] = [
    perhaps!(EVSE_ISOLATION_STATUS, ISOLATION_LEVEL_KIND),
    once!(EVSE_STATUS_CODE, EVSE_STATUS_CODE_KIND),
    once!(NOTIFICATION_MAX_DELAY, UNSIGNED_INT_KIND),
    once!(EVSE_NOTIFICATION, EVSE_NOTIFICATION_KIND),
];

const SESSION_SETUP_REQ_PARTICLES: [Particle<'static>; 1] = [once!(EVCCID, BINARY8_KIND)];

const SESSION_SETUP_RES_PARTICLES: [Particle<'static>; 3] = [
    once!(RESPONSE_CODE, RESPONSE_CODE_KIND),
    once!(EVSEID, BINARY32_KIND),
    perhaps!(DATE_TIME_NOW, LONG_KIND),
];

const SERVICE_DISCOVERY_REQ_PARTICLES: [Particle<'static>; 2] = [
    perhaps!(SERVICE_SCOPE, TEXT20_KIND),
    perhaps!(SERVICE_CATEGORY, SERVICE_CATEGORY_KIND),
];

const SERVICE_DISCOVERY_RES_PARTICLES: [Particle<'static>; 4] = [
    once!(RESPONSE_CODE, RESPONSE_CODE_KIND),
    once!(PAYMENT_OPTIONS, PAYMENT_OPTIONS_KIND),
    once!(CHARGE_SERVICE, CHARGE_SERVICE_KIND),
    perhaps!(SERVICE_LIST, SERVICE_LIST_KIND),
];

const PAYMENT_OPTIONS_PARTICLES: [Particle<'static>; 1] = [at_least_one!(
    2,
    PAYMENT_OPTION,
    PAYMENT_OPTION_KIND
)];

const CHARGE_SERVICE_PARTICLES: [Particle<'static>; 3] = [
    once!(SERVICE_TAG, SERVICE_TAG_KIND),
    once!(FREE_SERVICE, BOOLEAN_KIND),
    once!(ENERGY_TRANSFER_TYPE, SUPPORTED_ENERGY_TRANSFER_TYPE_KIND),
];

const SERVICE_TAG_PARTICLES: [Particle<'static>; 4] = [
    once!(SERVICE_ID, UNSIGNED_SHORT_KIND),
    perhaps!(SERVICE_NAME, TEXT32_KIND),
    once!(SERVICE_CATEGORY, SERVICE_CATEGORY_KIND),
    perhaps!(SERVICE_SCOPE, TEXT20_KIND),
];

const SERVICE_LIST_PARTICLES: [Particle<'static>; 1] = [at_least_one!(8, SERVICE, SERVICE_KIND)];

const SERVICE_PARTICLES: [Particle<'static>; 2] = [
    once!(SERVICE_TAG, SERVICE_TAG_KIND),
    once!(FREE_SERVICE, BOOLEAN_KIND),
];

const SERVICE_PAYMENT_SELECTION_REQ_PARTICLES: [Particle<'static>; 2] = [
    once!(SELECTED_PAYMENT_OPTION, PAYMENT_OPTION_KIND),
    once!(SELECTED_SERVICE_LIST, SELECTED_SERVICE_LIST_KIND),
];

const SELECTED_SERVICE_LIST_PARTICLES: [Particle<'static>; 1] = [at_least_one!(
    16,
    SELECTED_SERVICE,
    SELECTED_SERVICE_KIND
)];

const SELECTED_SERVICE_PARTICLES: [Particle<'static>; 2] = [
    once!(SERVICE_ID, UNSIGNED_SHORT_KIND),
    perhaps!(PARAMETER_SET_ID, SHORT_KIND),
];

const SERVICE_PAYMENT_SELECTION_RES_PARTICLES: [Particle<'static>; 1] = [once!(
    RESPONSE_CODE,
    RESPONSE_CODE_KIND
)];

const SESSION_STOP_RES_PARTICLES: [Particle<'static>; 1] = [once!(
    RESPONSE_CODE,
    RESPONSE_CODE_KIND
)];

const CONTRACT_AUTHENTICATION_REQ_ATTRIBUTES: [AttributeOf; 1] = [AttributeOf {
    name: ID,
    kind: TEXT64_KIND,
    required: false,
}];

const CONTRACT_AUTHENTICATION_REQ_PARTICLES: [Particle<'static>; 1] = [perhaps!(
    GEN_CHALLENGE,
    TEXT64_KIND
)];

const CONTRACT_AUTHENTICATION_RES_PARTICLES: [Particle<'static>; 2] = [
    once!(RESPONSE_CODE, RESPONSE_CODE_KIND),
    once!(EVSE_PROCESSING, EVSE_PROCESSING_KIND),
];

const CHARGE_PARAMETER_DISCOVERY_REQ_PARTICLES: [Particle<'static>; 2] = [
    once!(EV_REQUESTED_ENERGY_TRANSFER_TYPE, ENERGY_TRANSFER_MODE_KIND),
    one_of!(
        1,
        [
            member!(OutOfProfile, AC_EV_CHARGE_PARAMETER, EMPTY_KIND),
            member!(Taken, DC_EV_CHARGE_PARAMETER, DC_EV_CHARGE_PARAMETER_KIND),
            member!(Abstract, EV_CHARGE_PARAMETER, EMPTY_KIND)
        ]
    ),
];

const DC_EV_CHARGE_PARAMETER_PARTICLES: [Particle<'static>; 8] = [
    once!(DC_EV_STATUS, DC_EV_STATUS_KIND),
    once!(EV_MAXIMUM_CURRENT_LIMIT, PHYSICAL_VALUE_KIND),
    perhaps!(EV_MAXIMUM_POWER_LIMIT, PHYSICAL_VALUE_KIND),
    once!(EV_MAXIMUM_VOLTAGE_LIMIT, PHYSICAL_VALUE_KIND),
    perhaps!(EV_ENERGY_CAPACITY, PHYSICAL_VALUE_KIND),
    perhaps!(EV_ENERGY_REQUEST, PHYSICAL_VALUE_KIND),
    perhaps!(FULL_SOC, PERCENT_KIND),
    perhaps!(BULK_SOC, PERCENT_KIND),
];

const CHARGE_PARAMETER_DISCOVERY_RES_PARTICLES: [Particle<'static>; 4] = [
    once!(RESPONSE_CODE, RESPONSE_CODE_KIND),
    once!(EVSE_PROCESSING, EVSE_PROCESSING_KIND),
    one_of!(
        0,
        [
            member!(Taken, SA_SCHEDULE_LIST, SA_SCHEDULE_LIST_KIND),
            member!(Abstract, SA_SCHEDULES, EMPTY_KIND)
        ]
    ),
    one_of!(
        1,
        [
            member!(OutOfProfile, AC_EVSE_CHARGE_PARAMETER, EMPTY_KIND),
            member!(
                Taken,
                DC_EVSE_CHARGE_PARAMETER,
                DC_EVSE_CHARGE_PARAMETER_KIND
            ),
            member!(Abstract, EVSE_CHARGE_PARAMETER, EMPTY_KIND)
        ]
    ),
];

const SA_SCHEDULE_LIST_PARTICLES: [Particle<'static>; 1] = [at_least_one!(
    3,
    SA_SCHEDULE_TUPLE,
    SA_SCHEDULE_TUPLE_KIND
)];

const SA_SCHEDULE_TUPLE_PARTICLES: [Particle<'static>; 3] = [
    once!(SA_SCHEDULE_TUPLE_ID, SHORT_KIND),
    once!(P_MAX_SCHEDULE, P_MAX_SCHEDULE_KIND),
    left_out!(SALES_TARIFF),
];

const P_MAX_SCHEDULE_PARTICLES: [Particle<'static>; 2] = [
    once!(P_MAX_SCHEDULE_ID, SHORT_KIND),
    at_least_one!(128, P_MAX_SCHEDULE_ENTRY, P_MAX_SCHEDULE_ENTRY_KIND),
];

const P_MAX_SCHEDULE_ENTRY_PARTICLES: [Particle<'static>; 2] = [
    one_of!(
        1,
        [
            member!(Taken, RELATIVE_TIME_INTERVAL, RELATIVE_TIME_INTERVAL_KIND),
            member!(Abstract, TIME_INTERVAL, EMPTY_KIND)
        ]
    ),
    once!(P_MAX, SHORT_KIND),
];

const RELATIVE_TIME_INTERVAL_PARTICLES: [Particle<'static>; 2] = [
    once!(START, UNSIGNED_INT_KIND),
    perhaps!(DURATION, UNSIGNED_INT_KIND),
];

const DC_EVSE_CHARGE_PARAMETER_PARTICLES: [Particle<'static>; 9] = [
    once!(DC_EVSE_STATUS, DC_EVSE_STATUS_KIND),
    once!(EVSE_MAXIMUM_CURRENT_LIMIT, PHYSICAL_VALUE_KIND),
    perhaps!(EVSE_MAXIMUM_POWER_LIMIT, PHYSICAL_VALUE_KIND),
    once!(EVSE_MAXIMUM_VOLTAGE_LIMIT, PHYSICAL_VALUE_KIND),
    once!(EVSE_MINIMUM_CURRENT_LIMIT, PHYSICAL_VALUE_KIND),
    once!(EVSE_MINIMUM_VOLTAGE_LIMIT, PHYSICAL_VALUE_KIND),
    perhaps!(EVSE_CURRENT_REGULATION_TOLERANCE, PHYSICAL_VALUE_KIND),
    once!(EVSE_PEAK_CURRENT_RIPPLE, PHYSICAL_VALUE_KIND),
    perhaps!(EVSE_ENERGY_TO_BE_DELIVERED, PHYSICAL_VALUE_KIND),
];

const POWER_DELIVERY_REQ_PARTICLES: [Particle<'static>; 3] = [
    once!(READY_TO_CHARGE_STATE, BOOLEAN_KIND),
    perhaps!(CHARGING_PROFILE, CHARGING_PROFILE_KIND),
    one_of!(
        0,
        [
            member!(
                Taken,
                DC_EV_POWER_DELIVERY_PARAMETER,
                DC_EV_POWER_DELIVERY_PARAMETER_KIND
            ),
            member!(Abstract, EV_POWER_DELIVERY_PARAMETER, EMPTY_KIND)
        ]
    ),
];

const CHARGING_PROFILE_PARTICLES: [Particle<'static>; 2] = [
    once!(SA_SCHEDULE_TUPLE_ID, SHORT_KIND),
    at_least_one!(24, PROFILE_ENTRY, PROFILE_ENTRY_KIND),
];

const PROFILE_ENTRY_PARTICLES: [Particle<'static>; 2] = [
    once!(CHARGING_PROFILE_ENTRY_START, UNSIGNED_INT_KIND),
    once!(CHARGING_PROFILE_ENTRY_MAX_POWER, SHORT_KIND),
];

const DC_EV_POWER_DELIVERY_PARAMETER_PARTICLES: [Particle<'static>; 3] = [
    once!(DC_EV_STATUS, DC_EV_STATUS_KIND),
    perhaps!(BULK_CHARGING_COMPLETE, BOOLEAN_KIND),
    once!(CHARGING_COMPLETE, BOOLEAN_KIND),
];

const POWER_DELIVERY_RES_PARTICLES: [Particle<'static>; 2] = [
    once!(RESPONSE_CODE, RESPONSE_CODE_KIND),
    one_of!(
        1,
        [
            member!(OutOfProfile, AC_EVSE_STATUS, EMPTY_KIND),
            member!(Taken, DC_EVSE_STATUS, DC_EVSE_STATUS_KIND),
            member!(Abstract, EVSE_STATUS, EMPTY_KIND)
        ]
    ),
];

const CURRENT_DEMAND_REQ_PARTICLES: [Particle<'static>; 10] = [
    once!(DC_EV_STATUS, DC_EV_STATUS_KIND),
    once!(EV_TARGET_CURRENT, PHYSICAL_VALUE_KIND),
    perhaps!(EV_MAXIMUM_VOLTAGE_LIMIT, PHYSICAL_VALUE_KIND),
    perhaps!(EV_MAXIMUM_CURRENT_LIMIT, PHYSICAL_VALUE_KIND),
    perhaps!(EV_MAXIMUM_POWER_LIMIT, PHYSICAL_VALUE_KIND),
    perhaps!(BULK_CHARGING_COMPLETE, BOOLEAN_KIND),
    once!(CHARGING_COMPLETE, BOOLEAN_KIND),
    perhaps!(REMAINING_TIME_TO_FULL_SO_C, PHYSICAL_VALUE_KIND),
    perhaps!(REMAINING_TIME_TO_BULK_SO_C, PHYSICAL_VALUE_KIND),
    once!(EV_TARGET_VOLTAGE, PHYSICAL_VALUE_KIND),
];

const CURRENT_DEMAND_RES_PARTICLES: [Particle<'static>; 10] = [
    once!(RESPONSE_CODE, RESPONSE_CODE_KIND),
    once!(DC_EVSE_STATUS, DC_EVSE_STATUS_KIND),
    once!(EVSE_PRESENT_VOLTAGE, PHYSICAL_VALUE_KIND),
    once!(EVSE_PRESENT_CURRENT, PHYSICAL_VALUE_KIND),
    once!(EVSE_CURRENT_LIMIT_ACHIEVED, BOOLEAN_KIND),
    once!(EVSE_VOLTAGE_LIMIT_ACHIEVED, BOOLEAN_KIND),
    once!(EVSE_POWER_LIMIT_ACHIEVED, BOOLEAN_KIND),
    perhaps!(EVSE_MAXIMUM_VOLTAGE_LIMIT, PHYSICAL_VALUE_KIND),
    perhaps!(EVSE_MAXIMUM_CURRENT_LIMIT, PHYSICAL_VALUE_KIND),
    perhaps!(EVSE_MAXIMUM_POWER_LIMIT, PHYSICAL_VALUE_KIND),
];

const CABLE_CHECK_REQ_PARTICLES: [Particle<'static>; 1] = [once!(DC_EV_STATUS, DC_EV_STATUS_KIND)];

const CABLE_CHECK_RES_PARTICLES: [Particle<'static>; 3] = [
    once!(RESPONSE_CODE, RESPONSE_CODE_KIND),
    once!(DC_EVSE_STATUS, DC_EVSE_STATUS_KIND),
    once!(EVSE_PROCESSING, EVSE_PROCESSING_KIND),
];

const PRE_CHARGE_REQ_PARTICLES: [Particle<'static>; 3] = [
    once!(DC_EV_STATUS, DC_EV_STATUS_KIND),
    once!(EV_TARGET_VOLTAGE, PHYSICAL_VALUE_KIND),
    once!(EV_TARGET_CURRENT, PHYSICAL_VALUE_KIND),
];

const PRE_CHARGE_RES_PARTICLES: [Particle<'static>; 3] = [
    once!(RESPONSE_CODE, RESPONSE_CODE_KIND),
    once!(DC_EVSE_STATUS, DC_EVSE_STATUS_KIND),
    once!(EVSE_PRESENT_VOLTAGE, PHYSICAL_VALUE_KIND),
];

const WELDING_DETECTION_REQ_PARTICLES: [Particle<'static>; 1] = [once!(
    DC_EV_STATUS,
    DC_EV_STATUS_KIND
)];

const WELDING_DETECTION_RES_PARTICLES: [Particle<'static>; 3] = [
    once!(RESPONSE_CODE, RESPONSE_CODE_KIND),
    once!(DC_EVSE_STATUS, DC_EVSE_STATUS_KIND),
    once!(EVSE_PRESENT_VOLTAGE, PHYSICAL_VALUE_KIND),
];

static SIMPLE: [Declaration<'static>; 25] = [
    Declaration::Simple(Datatype::Bool),
    Declaration::Simple(Datatype::Signed {
        least: -32_768,
        most: 32_767,
    }),
    Declaration::Simple(Datatype::Signed {
        least: -9_223_372_036_854_775_808,
        most: 9_223_372_036_854_775_807,
    }),
    Declaration::Simple(Datatype::Unsigned { most: 65_535 }),
    Declaration::Simple(Datatype::Unsigned {
        most: 4_294_967_295,
    }),
    Declaration::Simple(Datatype::Bounded {
        least: -3,
        count: 7,
    }),
    Declaration::Simple(Datatype::Bounded {
        least: 0,
        count: 101,
    }),
    Declaration::Simple(Datatype::Text { most: 20 }),
    Declaration::Simple(Datatype::Text { most: 32 }),
    Declaration::Simple(Datatype::Text { most: 64 }),
    Declaration::Simple(Datatype::Binary { most: 8 }),
    Declaration::Simple(Datatype::Binary { most: 32 }),
    Declaration::Simple(Datatype::Named { count: 3 }),
    Declaration::Simple(Datatype::Named { count: 10 }),
    Declaration::Simple(Datatype::Named { count: 12 }),
    Declaration::Simple(Datatype::Named { count: 4 }),
    Declaration::Simple(Datatype::Named { count: 12 }),
    Declaration::Simple(Datatype::Named { count: 3 }),
    Declaration::Simple(Datatype::Named { count: 23 }),
    Declaration::Simple(Datatype::Named { count: 4 }),
    Declaration::Simple(Datatype::Named { count: 2 }),
    Declaration::Simple(Datatype::Named { count: 10 }),
    Declaration::Simple(Datatype::Named { count: 2 }),
    Declaration::Simple(Datatype::Named { count: 6 }),
    Declaration::Complex {
        attributes: &[],
        particles: &[],
    },
];

static FRAME: [Declaration<'static>; 7] = [
    Declaration::Complex {
        attributes: &[],
        particles: &V2G_MESSAGE_PARTICLES,
    },
    Declaration::Complex {
        attributes: &[],
        particles: &HEADER_PARTICLES,
    },
    Declaration::Complex {
        attributes: &[],
        particles: &NOTIFICATION_PARTICLES,
    },
    Declaration::Complex {
        attributes: &[],
        particles: &BODY_PARTICLES,
    },
    Declaration::Complex {
        attributes: &[],
        particles: &PHYSICAL_VALUE_PARTICLES,
    },
    Declaration::Complex {
        attributes: &[],
        particles: &DC_EV_STATUS_PARTICLES,
    },
    Declaration::Complex {
        attributes: &[],
        particles: &DC_EVSE_STATUS_PARTICLES,
    },
];

static SETUP: [Declaration<'static>; 16] = [
    Declaration::Complex {
        attributes: &[],
        particles: &SESSION_SETUP_REQ_PARTICLES,
    },
    Declaration::Complex {
        attributes: &[],
        particles: &SESSION_SETUP_RES_PARTICLES,
    },
    Declaration::Complex {
        attributes: &[],
        particles: &SERVICE_DISCOVERY_REQ_PARTICLES,
    },
    Declaration::Complex {
        attributes: &[],
        particles: &SERVICE_DISCOVERY_RES_PARTICLES,
    },
    Declaration::Complex {
        attributes: &[],
        particles: &PAYMENT_OPTIONS_PARTICLES,
    },
    Declaration::Complex {
        attributes: &[],
        particles: &CHARGE_SERVICE_PARTICLES,
    },
    Declaration::Complex {
        attributes: &[],
        particles: &SERVICE_TAG_PARTICLES,
    },
    Declaration::Complex {
        attributes: &[],
        particles: &SERVICE_LIST_PARTICLES,
    },
    Declaration::Complex {
        attributes: &[],
        particles: &SERVICE_PARTICLES,
    },
    Declaration::Complex {
        attributes: &[],
        particles: &SERVICE_PAYMENT_SELECTION_REQ_PARTICLES,
    },
    Declaration::Complex {
        attributes: &[],
        particles: &SELECTED_SERVICE_LIST_PARTICLES,
    },
    Declaration::Complex {
        attributes: &[],
        particles: &SELECTED_SERVICE_PARTICLES,
    },
    Declaration::Complex {
        attributes: &[],
        particles: &SERVICE_PAYMENT_SELECTION_RES_PARTICLES,
    },
    Declaration::Complex {
        attributes: &[],
        particles: &SESSION_STOP_RES_PARTICLES,
    },
    Declaration::Complex {
        attributes: &CONTRACT_AUTHENTICATION_REQ_ATTRIBUTES,
        particles: &CONTRACT_AUTHENTICATION_REQ_PARTICLES,
    },
    Declaration::Complex {
        attributes: &[],
        particles: &CONTRACT_AUTHENTICATION_RES_PARTICLES,
    },
];

static PARAMETERS: [Declaration<'static>; 14] = [
    Declaration::Complex {
        attributes: &[],
        particles: &CHARGE_PARAMETER_DISCOVERY_REQ_PARTICLES,
    },
    Declaration::Complex {
        attributes: &[],
        particles: &DC_EV_CHARGE_PARAMETER_PARTICLES,
    },
    Declaration::Complex {
        attributes: &[],
        particles: &CHARGE_PARAMETER_DISCOVERY_RES_PARTICLES,
    },
    Declaration::Complex {
        attributes: &[],
        particles: &SA_SCHEDULE_LIST_PARTICLES,
    },
    Declaration::Complex {
        attributes: &[],
        particles: &SA_SCHEDULE_TUPLE_PARTICLES,
    },
    Declaration::Complex {
        attributes: &[],
        particles: &P_MAX_SCHEDULE_PARTICLES,
    },
    Declaration::Complex {
        attributes: &[],
        particles: &P_MAX_SCHEDULE_ENTRY_PARTICLES,
    },
    Declaration::Complex {
        attributes: &[],
        particles: &RELATIVE_TIME_INTERVAL_PARTICLES,
    },
    Declaration::Complex {
        attributes: &[],
        particles: &DC_EVSE_CHARGE_PARAMETER_PARTICLES,
    },
    Declaration::Complex {
        attributes: &[],
        particles: &POWER_DELIVERY_REQ_PARTICLES,
    },
    Declaration::Complex {
        attributes: &[],
        particles: &CHARGING_PROFILE_PARTICLES,
    },
    Declaration::Complex {
        attributes: &[],
        particles: &PROFILE_ENTRY_PARTICLES,
    },
    Declaration::Complex {
        attributes: &[],
        particles: &DC_EV_POWER_DELIVERY_PARAMETER_PARTICLES,
    },
    Declaration::Complex {
        attributes: &[],
        particles: &POWER_DELIVERY_RES_PARTICLES,
    },
];

static CHARGING: [Declaration<'static>; 8] = [
    Declaration::Complex {
        attributes: &[],
        particles: &CURRENT_DEMAND_REQ_PARTICLES,
    },
    Declaration::Complex {
        attributes: &[],
        particles: &CURRENT_DEMAND_RES_PARTICLES,
    },
    Declaration::Complex {
        attributes: &[],
        particles: &CABLE_CHECK_REQ_PARTICLES,
    },
    Declaration::Complex {
        attributes: &[],
        particles: &CABLE_CHECK_RES_PARTICLES,
    },
    Declaration::Complex {
        attributes: &[],
        particles: &PRE_CHARGE_REQ_PARTICLES,
    },
    Declaration::Complex {
        attributes: &[],
        particles: &PRE_CHARGE_RES_PARTICLES,
    },
    Declaration::Complex {
        attributes: &[],
        particles: &WELDING_DETECTION_REQ_PARTICLES,
    },
    Declaration::Complex {
        attributes: &[],
        particles: &WELDING_DETECTION_RES_PARTICLES,
    },
];

static ROOTS: [RootOf; 1] = [RootOf {
    number: 77,
    name: V2G_MESSAGE,
    kind: V2G_MESSAGE_KIND,
}];

fn simple() -> &'static [Declaration<'static>]
    ensures { plain_kinds result.now ≡ declared.simple }
{
    &SIMPLE
}

fn frame() -> &'static [Declaration<'static>]
    ensures { plain_kinds result.now ≡ declared.frame }
{
    &FRAME
}

fn setup() -> &'static [Declaration<'static>]
    ensures { plain_kinds result.now ≡ declared.setup }
{
    &SETUP
}

fn parameters() -> &'static [Declaration<'static>]
    ensures { plain_kinds result.now ≡ declared.parameters }
{
    &PARAMETERS
}

fn charging() -> &'static [Declaration<'static>]
    ensures { plain_kinds result.now ≡ declared.charging }
{
    &CHARGING
}

/// Puts the first parts of the declarations.
fn put_first(kinds: &mut Vec<Declaration<'static>>) -> Result<(), AllocError>
    ensures { IfOk result (λ _. plain_kinds kinds.new.items ≡ plain_kinds kinds.old.items ++ (declared.simple ++ declared.frame)) }
{
    kinds.extend_from_slice(simple())?;
    kinds.extend_from_slice(frame())?;
    Ok(())
}

/// Puts the last parts of the declarations.
fn put_last(kinds: &mut Vec<Declaration<'static>>) -> Result<(), AllocError>
    ensures { IfOk result (λ _. plain_kinds kinds.new.items ≡ plain_kinds kinds.old.items ++ (declared.setup ++ declared.parameters ++ declared.charging)) }
{
    kinds.extend_from_slice(setup())?;
    kinds.extend_from_slice(parameters())?;
    kinds.extend_from_slice(charging())?;
    Ok(())
}

fn names() -> &'static [&'static str]
    ensures { map (λ t. t.now) result.now ≡ declared.names }
{
    &NAMES
}

fn values() -> &'static [&'static [&'static str]]
    ensures { map (λ l. map (λ t. t.now) l.now) result.now ≡ declared.values }
{
    &VALUES
}

/// The declarations of the messages of DIN SPEC 70121.
#[derive(Drop)]
pub struct DinSchema {
    kinds: Vec<Declaration<'static>>,
    ghost kinds_are: { plain_kinds kinds.items ≡ declared.kinds },
}

impl DinSchema {
    /// The declarations, each part behind the other.
    pub fn make(alloc: Global) -> Result<DinSchema, AllocError> {
        let mut kinds: Vec<Declaration<'static>> = Vec::new(alloc);
        put_first(&mut kinds)?;
        put_last(&mut kinds)?;
        Ok(DinSchema { kinds })
    }

    /// The schema.
    pub fn schema(&self) -> Schema<'_>
        ensures { schema_of result ≡ declared.schema }
    {
        Schema {
            kinds: self.kinds.as_slice(),
            names: names(),
            values: values(),
            root_bits: 7,
            roots: &ROOTS,
        }
    }
}
