//! The numbers of the kinds of the messages of DIN SPEC 70121: values, enumerations, and types of elements with parts.

/// Boolean: bool.
pub const BOOLEAN_KIND: u16 = 0;

/// Short: signed -32768 32767.
pub const SHORT_KIND: u16 = 1;

/// Long: signed -9223372036854775808 9223372036854775807.
pub const LONG_KIND: u16 = 2;

/// UnsignedShort: unsigned 65535.
pub const UNSIGNED_SHORT_KIND: u16 = 3;

/// UnsignedInt: unsigned 4294967295.
pub const UNSIGNED_INT_KIND: u16 = 4;

/// Multiplier: bounded -3 7.
pub const MULTIPLIER_KIND: u16 = 5;

/// Percent: bounded 0 101.
pub const PERCENT_KIND: u16 = 6;

/// Text20: text 20.
pub const TEXT20_KIND: u16 = 7;

/// Text32: text 32.
pub const TEXT32_KIND: u16 = 8;

/// Text64: text 64.
pub const TEXT64_KIND: u16 = 9;

/// Binary8: binary 8.
pub const BINARY8_KIND: u16 = 10;

/// Binary32: binary 32.
pub const BINARY32_KIND: u16 = 11;

/// The enumeration FaultCode.
pub const FAULT_CODE_KIND: u16 = 12;

/// The enumeration UnitSymbol.
pub const UNIT_SYMBOL_KIND: u16 = 13;

/// The enumeration EVErrorCode.
pub const EV_ERROR_CODE_KIND: u16 = 14;

/// The enumeration IsolationLevel.
pub const ISOLATION_LEVEL_KIND: u16 = 15;

/// The enumeration EVSEStatusCode.
pub const EVSE_STATUS_CODE_KIND: u16 = 16;

/// The enumeration EVSENotification.
pub const EVSE_NOTIFICATION_KIND: u16 = 17;

/// The enumeration ResponseCode.
pub const RESPONSE_CODE_KIND: u16 = 18;

/// The enumeration ServiceCategory.
pub const SERVICE_CATEGORY_KIND: u16 = 19;

/// The enumeration PaymentOption.
pub const PAYMENT_OPTION_KIND: u16 = 20;

/// The enumeration SupportedEnergyTransferType.
pub const SUPPORTED_ENERGY_TRANSFER_TYPE_KIND: u16 = 21;

/// The enumeration EVSEProcessing.
pub const EVSE_PROCESSING_KIND: u16 = 22;

/// The enumeration EnergyTransferMode.
pub const ENERGY_TRANSFER_MODE_KIND: u16 = 23;

/// No content.
pub const EMPTY_KIND: u16 = 24;

/// What V2G_Message contains.
pub const V2G_MESSAGE_KIND: u16 = 25;

/// What Header contains.
pub const HEADER_KIND: u16 = 26;

/// What Notification contains.
pub const NOTIFICATION_KIND: u16 = 27;

/// What Body contains.
pub const BODY_KIND: u16 = 28;

/// What PhysicalValue contains.
pub const PHYSICAL_VALUE_KIND: u16 = 29;

/// What DC_EVStatus contains.
pub const DC_EV_STATUS_KIND: u16 = 30;

/// What DC_EVSEStatus contains.
pub const DC_EVSE_STATUS_KIND: u16 = 31;

/// What SessionSetupReq contains.
pub const SESSION_SETUP_REQ_KIND: u16 = 32;

/// What SessionSetupRes contains.
pub const SESSION_SETUP_RES_KIND: u16 = 33;

/// What ServiceDiscoveryReq contains.
pub const SERVICE_DISCOVERY_REQ_KIND: u16 = 34;

/// What ServiceDiscoveryRes contains.
pub const SERVICE_DISCOVERY_RES_KIND: u16 = 35;

/// What PaymentOptions contains.
pub const PAYMENT_OPTIONS_KIND: u16 = 36;

/// What ChargeService contains.
pub const CHARGE_SERVICE_KIND: u16 = 37;

/// What ServiceTag contains.
pub const SERVICE_TAG_KIND: u16 = 38;

/// What ServiceList contains.
pub const SERVICE_LIST_KIND: u16 = 39;

/// What Service contains.
pub const SERVICE_KIND: u16 = 40;

/// What ServicePaymentSelectionReq contains.
pub const SERVICE_PAYMENT_SELECTION_REQ_KIND: u16 = 41;

/// What SelectedServiceList contains.
pub const SELECTED_SERVICE_LIST_KIND: u16 = 42;

/// What SelectedService contains.
pub const SELECTED_SERVICE_KIND: u16 = 43;

/// What ServicePaymentSelectionRes contains.
pub const SERVICE_PAYMENT_SELECTION_RES_KIND: u16 = 44;

/// What SessionStopRes contains.
pub const SESSION_STOP_RES_KIND: u16 = 45;

/// What ContractAuthenticationReq contains.
pub const CONTRACT_AUTHENTICATION_REQ_KIND: u16 = 46;

/// What ContractAuthenticationRes contains.
pub const CONTRACT_AUTHENTICATION_RES_KIND: u16 = 47;

/// What ChargeParameterDiscoveryReq contains.
pub const CHARGE_PARAMETER_DISCOVERY_REQ_KIND: u16 = 48;

/// What DC_EVChargeParameter contains.
pub const DC_EV_CHARGE_PARAMETER_KIND: u16 = 49;

/// What ChargeParameterDiscoveryRes contains.
pub const CHARGE_PARAMETER_DISCOVERY_RES_KIND: u16 = 50;

/// What SAScheduleList contains.
pub const SA_SCHEDULE_LIST_KIND: u16 = 51;

/// What SAScheduleTuple contains.
pub const SA_SCHEDULE_TUPLE_KIND: u16 = 52;

/// What PMaxSchedule contains.
pub const P_MAX_SCHEDULE_KIND: u16 = 53;

/// What PMaxScheduleEntry contains.
pub const P_MAX_SCHEDULE_ENTRY_KIND: u16 = 54;

/// What RelativeTimeInterval contains.
pub const RELATIVE_TIME_INTERVAL_KIND: u16 = 55;

/// What DC_EVSEChargeParameter contains.
pub const DC_EVSE_CHARGE_PARAMETER_KIND: u16 = 56;

/// What PowerDeliveryReq contains.
pub const POWER_DELIVERY_REQ_KIND: u16 = 57;

/// What ChargingProfile contains.
pub const CHARGING_PROFILE_KIND: u16 = 58;

/// What ProfileEntry contains.
pub const PROFILE_ENTRY_KIND: u16 = 59;

/// What DC_EVPowerDeliveryParameter contains.
pub const DC_EV_POWER_DELIVERY_PARAMETER_KIND: u16 = 60;

/// What PowerDeliveryRes contains.
pub const POWER_DELIVERY_RES_KIND: u16 = 61;

/// What CurrentDemandReq contains.
pub const CURRENT_DEMAND_REQ_KIND: u16 = 62;

/// What CurrentDemandRes contains.
pub const CURRENT_DEMAND_RES_KIND: u16 = 63;

/// What CableCheckReq contains.
pub const CABLE_CHECK_REQ_KIND: u16 = 64;

/// What CableCheckRes contains.
pub const CABLE_CHECK_RES_KIND: u16 = 65;

/// What PreChargeReq contains.
pub const PRE_CHARGE_REQ_KIND: u16 = 66;

/// What PreChargeRes contains.
pub const PRE_CHARGE_RES_KIND: u16 = 67;

/// What WeldingDetectionReq contains.
pub const WELDING_DETECTION_REQ_KIND: u16 = 68;

/// What WeldingDetectionRes contains.
pub const WELDING_DETECTION_RES_KIND: u16 = 69;
