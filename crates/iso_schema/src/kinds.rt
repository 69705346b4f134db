//! The numbers of the kinds of the messages of ISO 15118-2: values, enumerations, and types of elements with parts.

/// Boolean: bool.
pub const BOOLEAN_KIND: u16 = 0;

/// Byte: bounded -128 256.
pub const BYTE_KIND: u16 = 1;

/// Short: signed -32768 32767.
pub const SHORT_KIND: u16 = 2;

/// Int: signed -2147483648 2147483647.
pub const INT_KIND: u16 = 3;

/// Long: signed -9223372036854775808 9223372036854775807.
pub const LONG_KIND: u16 = 4;

/// UnsignedShort: unsigned 65535.
pub const UNSIGNED_SHORT_KIND: u16 = 5;

/// UnsignedInt: unsigned 4294967295.
pub const UNSIGNED_INT_KIND: u16 = 6;

/// UnsignedLong: unsigned 18446744073709551615.
pub const UNSIGNED_LONG_KIND: u16 = 7;

/// Multiplier: bounded -3 7.
pub const MULTIPLIER_KIND: u16 = 8;

/// Percent: bounded 0 101.
pub const PERCENT_KIND: u16 = 9;

/// TupleID: bounded 1 255.
pub const TUPLE_ID_KIND: u16 = 10;

/// Phases: bounded 1 3.
pub const PHASES_KIND: u16 = 11;

/// IntervalStart: unsigned 16777214.
pub const INTERVAL_START_KIND: u16 = 12;

/// IntervalDuration: unsigned 86400.
pub const INTERVAL_DURATION_KIND: u16 = 13;

/// Text32: text 32.
pub const TEXT32_KIND: u16 = 14;

/// Text37: text 37.
pub const TEXT37_KIND: u16 = 15;

/// Text64: text 64.
pub const TEXT64_KIND: u16 = 16;

/// Binary6: binary 6.
pub const BINARY6_KIND: u16 = 17;

/// Binary8: binary 8.
pub const BINARY8_KIND: u16 = 18;

/// Binary16: binary 16.
pub const BINARY16_KIND: u16 = 19;

/// Binary64: binary 64.
pub const BINARY64_KIND: u16 = 20;

/// The enumeration FaultCode.
pub const FAULT_CODE_KIND: u16 = 21;

/// The enumeration UnitSymbol.
pub const UNIT_SYMBOL_KIND: u16 = 22;

/// The enumeration EVErrorCode.
pub const EV_ERROR_CODE_KIND: u16 = 23;

/// The enumeration EVSENotification.
pub const EVSE_NOTIFICATION_KIND: u16 = 24;

/// The enumeration IsolationLevel.
pub const ISOLATION_LEVEL_KIND: u16 = 25;

/// The enumeration EVSEStatusCode.
pub const EVSE_STATUS_CODE_KIND: u16 = 26;

/// The enumeration ResponseCode.
pub const RESPONSE_CODE_KIND: u16 = 27;

/// The enumeration ServiceCategory.
pub const SERVICE_CATEGORY_KIND: u16 = 28;

/// The enumeration PaymentOption.
pub const PAYMENT_OPTION_KIND: u16 = 29;

/// The enumeration EnergyTransferMode.
pub const ENERGY_TRANSFER_MODE_KIND: u16 = 30;

/// The enumeration EVSEProcessing.
pub const EVSE_PROCESSING_KIND: u16 = 31;

/// The enumeration ChargingSession.
pub const CHARGING_SESSION_KIND: u16 = 32;

/// The enumeration ChargeProgress.
pub const CHARGE_PROGRESS_KIND: u16 = 33;

/// No content.
pub const EMPTY_KIND: u16 = 34;

/// What V2G_Message contains.
pub const V2G_MESSAGE_KIND: u16 = 35;

/// What Header contains.
pub const HEADER_KIND: u16 = 36;

/// What Notification contains.
pub const NOTIFICATION_KIND: u16 = 37;

/// What Body contains.
pub const BODY_KIND: u16 = 38;

/// What PhysicalValue contains.
pub const PHYSICAL_VALUE_KIND: u16 = 39;

/// What DC_EVStatus contains.
pub const DC_EV_STATUS_KIND: u16 = 40;

/// What AC_EVSEStatus contains.
pub const AC_EVSE_STATUS_KIND: u16 = 41;

/// What DC_EVSEStatus contains.
pub const DC_EVSE_STATUS_KIND: u16 = 42;

/// What MeterInfo contains.
pub const METER_INFO_KIND: u16 = 43;

/// What SessionSetupReq contains.
pub const SESSION_SETUP_REQ_KIND: u16 = 44;

/// What SessionSetupRes contains.
pub const SESSION_SETUP_RES_KIND: u16 = 45;

/// What ServiceDiscoveryReq contains.
pub const SERVICE_DISCOVERY_REQ_KIND: u16 = 46;

/// What ServiceDiscoveryRes contains.
pub const SERVICE_DISCOVERY_RES_KIND: u16 = 47;

/// What PaymentOptionList contains.
pub const PAYMENT_OPTION_LIST_KIND: u16 = 48;

/// What ChargeService contains.
pub const CHARGE_SERVICE_KIND: u16 = 49;

/// What SupportedEnergyTransferMode contains.
pub const SUPPORTED_ENERGY_TRANSFER_MODE_KIND: u16 = 50;

/// What ServiceList contains.
pub const SERVICE_LIST_KIND: u16 = 51;

/// What Service contains.
pub const SERVICE_KIND: u16 = 52;

/// What ServiceDetailReq contains.
pub const SERVICE_DETAIL_REQ_KIND: u16 = 53;

/// What ServiceDetailRes contains.
pub const SERVICE_DETAIL_RES_KIND: u16 = 54;

/// What ServiceParameterList contains.
pub const SERVICE_PARAMETER_LIST_KIND: u16 = 55;

/// What ParameterSet contains.
pub const PARAMETER_SET_KIND: u16 = 56;

/// What Parameter contains.
pub const PARAMETER_KIND: u16 = 57;

/// What PaymentServiceSelectionReq contains.
pub const PAYMENT_SERVICE_SELECTION_REQ_KIND: u16 = 58;

/// What SelectedServiceList contains.
pub const SELECTED_SERVICE_LIST_KIND: u16 = 59;

/// What SelectedService contains.
pub const SELECTED_SERVICE_KIND: u16 = 60;

/// What PaymentServiceSelectionRes contains.
pub const PAYMENT_SERVICE_SELECTION_RES_KIND: u16 = 61;

/// What AuthorizationReq contains.
pub const AUTHORIZATION_REQ_KIND: u16 = 62;

/// What AuthorizationRes contains.
pub const AUTHORIZATION_RES_KIND: u16 = 63;

/// What SessionStopReq contains.
pub const SESSION_STOP_REQ_KIND: u16 = 64;

/// What SessionStopRes contains.
pub const SESSION_STOP_RES_KIND: u16 = 65;

/// What ChargeParameterDiscoveryReq contains.
pub const CHARGE_PARAMETER_DISCOVERY_REQ_KIND: u16 = 66;

/// What AC_EVChargeParameter contains.
pub const AC_EV_CHARGE_PARAMETER_KIND: u16 = 67;

/// What DC_EVChargeParameter contains.
pub const DC_EV_CHARGE_PARAMETER_KIND: u16 = 68;

/// What ChargeParameterDiscoveryRes contains.
pub const CHARGE_PARAMETER_DISCOVERY_RES_KIND: u16 = 69;

/// What SAScheduleList contains.
pub const SA_SCHEDULE_LIST_KIND: u16 = 70;

/// What SAScheduleTuple contains.
pub const SA_SCHEDULE_TUPLE_KIND: u16 = 71;

/// What PMaxSchedule contains.
pub const P_MAX_SCHEDULE_KIND: u16 = 72;

/// What PMaxScheduleEntry contains.
pub const P_MAX_SCHEDULE_ENTRY_KIND: u16 = 73;

/// What RelativeTimeInterval contains.
pub const RELATIVE_TIME_INTERVAL_KIND: u16 = 74;

/// What AC_EVSEChargeParameter contains.
pub const AC_EVSE_CHARGE_PARAMETER_KIND: u16 = 75;

/// What DC_EVSEChargeParameter contains.
pub const DC_EVSE_CHARGE_PARAMETER_KIND: u16 = 76;

/// What PowerDeliveryReq contains.
pub const POWER_DELIVERY_REQ_KIND: u16 = 77;

/// What ChargingProfile contains.
pub const CHARGING_PROFILE_KIND: u16 = 78;

/// What ProfileEntry contains.
pub const PROFILE_ENTRY_KIND: u16 = 79;

/// What DC_EVPowerDeliveryParameter contains.
pub const DC_EV_POWER_DELIVERY_PARAMETER_KIND: u16 = 80;

/// What PowerDeliveryRes contains.
pub const POWER_DELIVERY_RES_KIND: u16 = 81;

/// What ChargingStatusRes contains.
pub const CHARGING_STATUS_RES_KIND: u16 = 82;

/// What CableCheckReq contains.
pub const CABLE_CHECK_REQ_KIND: u16 = 83;

/// What CableCheckRes contains.
pub const CABLE_CHECK_RES_KIND: u16 = 84;

/// What PreChargeReq contains.
pub const PRE_CHARGE_REQ_KIND: u16 = 85;

/// What PreChargeRes contains.
pub const PRE_CHARGE_RES_KIND: u16 = 86;

/// What CurrentDemandReq contains.
pub const CURRENT_DEMAND_REQ_KIND: u16 = 87;

/// What CurrentDemandRes contains.
pub const CURRENT_DEMAND_RES_KIND: u16 = 88;

/// What WeldingDetectionReq contains.
pub const WELDING_DETECTION_REQ_KIND: u16 = 89;

/// What WeldingDetectionRes contains.
pub const WELDING_DETECTION_RES_KIND: u16 = 90;
