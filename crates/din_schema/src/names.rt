//! The numbers of the names of the messages of DIN SPEC 70121.

/// V2G_Message.
pub const V2G_MESSAGE: u16 = 0;

/// Header.
pub const HEADER: u16 = 1;

/// Body.
pub const BODY: u16 = 2;

/// SessionID.
pub const SESSION_ID: u16 = 3;

/// Notification.
pub const NOTIFICATION: u16 = 4;

/// Signature.
pub const SIGNATURE: u16 = 5;

/// FaultCode.
pub const FAULT_CODE: u16 = 6;

/// FaultMsg.
pub const FAULT_MSG: u16 = 7;

/// BodyElement.
pub const BODY_ELEMENT: u16 = 8;

/// CableCheckReq.
pub const CABLE_CHECK_REQ: u16 = 9;

/// CableCheckRes.
pub const CABLE_CHECK_RES: u16 = 10;

/// CertificateInstallationReq.
pub const CERTIFICATE_INSTALLATION_REQ: u16 = 11;

/// CertificateInstallationRes.
pub const CERTIFICATE_INSTALLATION_RES: u16 = 12;

/// CertificateUpdateReq.
pub const CERTIFICATE_UPDATE_REQ: u16 = 13;

/// CertificateUpdateRes.
pub const CERTIFICATE_UPDATE_RES: u16 = 14;

/// ChargeParameterDiscoveryReq.
pub const CHARGE_PARAMETER_DISCOVERY_REQ: u16 = 15;

/// ChargeParameterDiscoveryRes.
pub const CHARGE_PARAMETER_DISCOVERY_RES: u16 = 16;

/// ChargingStatusReq.
pub const CHARGING_STATUS_REQ: u16 = 17;

/// ChargingStatusRes.
pub const CHARGING_STATUS_RES: u16 = 18;

/// ContractAuthenticationReq.
pub const CONTRACT_AUTHENTICATION_REQ: u16 = 19;

/// ContractAuthenticationRes.
pub const CONTRACT_AUTHENTICATION_RES: u16 = 20;

/// CurrentDemandReq.
pub const CURRENT_DEMAND_REQ: u16 = 21;

/// CurrentDemandRes.
pub const CURRENT_DEMAND_RES: u16 = 22;

/// MeteringReceiptReq.
pub const METERING_RECEIPT_REQ: u16 = 23;

/// MeteringReceiptRes.
pub const METERING_RECEIPT_RES: u16 = 24;

/// PaymentDetailsReq.
pub const PAYMENT_DETAILS_REQ: u16 = 25;

/// PaymentDetailsRes.
pub const PAYMENT_DETAILS_RES: u16 = 26;

/// PowerDeliveryReq.
pub const POWER_DELIVERY_REQ: u16 = 27;

/// PowerDeliveryRes.
pub const POWER_DELIVERY_RES: u16 = 28;

/// PreChargeReq.
pub const PRE_CHARGE_REQ: u16 = 29;

/// PreChargeRes.
pub const PRE_CHARGE_RES: u16 = 30;

/// ServiceDetailReq.
pub const SERVICE_DETAIL_REQ: u16 = 31;

/// ServiceDetailRes.
pub const SERVICE_DETAIL_RES: u16 = 32;

/// ServiceDiscoveryReq.
pub const SERVICE_DISCOVERY_REQ: u16 = 33;

/// ServiceDiscoveryRes.
pub const SERVICE_DISCOVERY_RES: u16 = 34;

/// ServicePaymentSelectionReq.
pub const SERVICE_PAYMENT_SELECTION_REQ: u16 = 35;

/// ServicePaymentSelectionRes.
pub const SERVICE_PAYMENT_SELECTION_RES: u16 = 36;

/// SessionSetupReq.
pub const SESSION_SETUP_REQ: u16 = 37;

/// SessionSetupRes.
pub const SESSION_SETUP_RES: u16 = 38;

/// SessionStopReq.
pub const SESSION_STOP_REQ: u16 = 39;

/// SessionStopRes.
pub const SESSION_STOP_RES: u16 = 40;

/// WeldingDetectionReq.
pub const WELDING_DETECTION_REQ: u16 = 41;

/// WeldingDetectionRes.
pub const WELDING_DETECTION_RES: u16 = 42;

/// Multiplier.
pub const MULTIPLIER: u16 = 43;

/// Unit.
pub const UNIT: u16 = 44;

/// Value.
pub const VALUE: u16 = 45;

/// EVReady.
pub const EV_READY: u16 = 46;

/// EVCabinConditioning.
pub const EV_CABIN_CONDITIONING: u16 = 47;

/// EVRESSConditioning.
pub const EVRESS_CONDITIONING: u16 = 48;

/// EVErrorCode.
pub const EV_ERROR_CODE: u16 = 49;

/// EVRESSSOC.
pub const EVRESS_SOC: u16 = 50;

/// EVSEIsolationStatus.
pub const EVSE_ISOLATION_STATUS: u16 = 51;

/// EVSEStatusCode.
pub const EVSE_STATUS_CODE: u16 = 52;

/// NotificationMaxDelay.
pub const NOTIFICATION_MAX_DELAY: u16 = 53;

/// EVSENotification.
pub const EVSE_NOTIFICATION: u16 = 54;

/// EVCCID.
pub const EVCCID: u16 = 55;

/// ResponseCode.
pub const RESPONSE_CODE: u16 = 56;

/// EVSEID.
pub const EVSEID: u16 = 57;

/// DateTimeNow.
pub const DATE_TIME_NOW: u16 = 58;

/// ServiceScope.
pub const SERVICE_SCOPE: u16 = 59;

/// ServiceCategory.
pub const SERVICE_CATEGORY: u16 = 60;

/// PaymentOptions.
pub const PAYMENT_OPTIONS: u16 = 61;

/// ChargeService.
pub const CHARGE_SERVICE: u16 = 62;

/// ServiceList.
pub const SERVICE_LIST: u16 = 63;

/// PaymentOption.
pub const PAYMENT_OPTION: u16 = 64;

/// ServiceTag.
pub const SERVICE_TAG: u16 = 65;

/// FreeService.
pub const FREE_SERVICE: u16 = 66;

/// EnergyTransferType.
pub const ENERGY_TRANSFER_TYPE: u16 = 67;

/// ServiceID.
pub const SERVICE_ID: u16 = 68;

/// ServiceName.
pub const SERVICE_NAME: u16 = 69;

/// Service.
pub const SERVICE: u16 = 70;

/// SelectedPaymentOption.
pub const SELECTED_PAYMENT_OPTION: u16 = 71;

/// SelectedServiceList.
pub const SELECTED_SERVICE_LIST: u16 = 72;

/// SelectedService.
pub const SELECTED_SERVICE: u16 = 73;

/// ParameterSetID.
pub const PARAMETER_SET_ID: u16 = 74;

/// Id.
pub const ID: u16 = 75;

/// GenChallenge.
pub const GEN_CHALLENGE: u16 = 76;

/// EVSEProcessing.
pub const EVSE_PROCESSING: u16 = 77;

/// EVRequestedEnergyTransferType.
pub const EV_REQUESTED_ENERGY_TRANSFER_TYPE: u16 = 78;

/// AC_EVChargeParameter.
pub const AC_EV_CHARGE_PARAMETER: u16 = 79;

/// DC_EVChargeParameter.
pub const DC_EV_CHARGE_PARAMETER: u16 = 80;

/// EVChargeParameter.
pub const EV_CHARGE_PARAMETER: u16 = 81;

/// DC_EVStatus.
pub const DC_EV_STATUS: u16 = 82;

/// EVMaximumCurrentLimit.
pub const EV_MAXIMUM_CURRENT_LIMIT: u16 = 83;

/// EVMaximumPowerLimit.
pub const EV_MAXIMUM_POWER_LIMIT: u16 = 84;

/// EVMaximumVoltageLimit.
pub const EV_MAXIMUM_VOLTAGE_LIMIT: u16 = 85;

/// EVEnergyCapacity.
pub const EV_ENERGY_CAPACITY: u16 = 86;

/// EVEnergyRequest.
pub const EV_ENERGY_REQUEST: u16 = 87;

/// FullSOC.
pub const FULL_SOC: u16 = 88;

/// BulkSOC.
pub const BULK_SOC: u16 = 89;

/// SAScheduleList.
pub const SA_SCHEDULE_LIST: u16 = 90;

/// SASchedules.
pub const SA_SCHEDULES: u16 = 91;

/// AC_EVSEChargeParameter.
pub const AC_EVSE_CHARGE_PARAMETER: u16 = 92;

/// DC_EVSEChargeParameter.
pub const DC_EVSE_CHARGE_PARAMETER: u16 = 93;

/// EVSEChargeParameter.
pub const EVSE_CHARGE_PARAMETER: u16 = 94;

/// SAScheduleTuple.
pub const SA_SCHEDULE_TUPLE: u16 = 95;

/// SAScheduleTupleID.
pub const SA_SCHEDULE_TUPLE_ID: u16 = 96;

/// PMaxSchedule.
pub const P_MAX_SCHEDULE: u16 = 97;

/// SalesTariff.
pub const SALES_TARIFF: u16 = 98;

/// PMaxScheduleID.
pub const P_MAX_SCHEDULE_ID: u16 = 99;

/// PMaxScheduleEntry.
pub const P_MAX_SCHEDULE_ENTRY: u16 = 100;

/// RelativeTimeInterval.
pub const RELATIVE_TIME_INTERVAL: u16 = 101;

/// TimeInterval.
pub const TIME_INTERVAL: u16 = 102;

/// PMax.
pub const P_MAX: u16 = 103;

/// start.
pub const START: u16 = 104;

/// duration.
pub const DURATION: u16 = 105;

/// DC_EVSEStatus.
pub const DC_EVSE_STATUS: u16 = 106;

/// EVSEMaximumCurrentLimit.
pub const EVSE_MAXIMUM_CURRENT_LIMIT: u16 = 107;

/// EVSEMaximumPowerLimit.
pub const EVSE_MAXIMUM_POWER_LIMIT: u16 = 108;

/// EVSEMaximumVoltageLimit.
pub const EVSE_MAXIMUM_VOLTAGE_LIMIT: u16 = 109;

/// EVSEMinimumCurrentLimit.
pub const EVSE_MINIMUM_CURRENT_LIMIT: u16 = 110;

/// EVSEMinimumVoltageLimit.
pub const EVSE_MINIMUM_VOLTAGE_LIMIT: u16 = 111;

/// EVSECurrentRegulationTolerance.
pub const EVSE_CURRENT_REGULATION_TOLERANCE: u16 = 112;

/// EVSEPeakCurrentRipple.
pub const EVSE_PEAK_CURRENT_RIPPLE: u16 = 113;

/// EVSEEnergyToBeDelivered.
pub const EVSE_ENERGY_TO_BE_DELIVERED: u16 = 114;

/// ReadyToChargeState.
pub const READY_TO_CHARGE_STATE: u16 = 115;

/// ChargingProfile.
pub const CHARGING_PROFILE: u16 = 116;

/// DC_EVPowerDeliveryParameter.
pub const DC_EV_POWER_DELIVERY_PARAMETER: u16 = 117;

/// EVPowerDeliveryParameter.
pub const EV_POWER_DELIVERY_PARAMETER: u16 = 118;

/// ProfileEntry.
pub const PROFILE_ENTRY: u16 = 119;

/// ChargingProfileEntryStart.
pub const CHARGING_PROFILE_ENTRY_START: u16 = 120;

/// ChargingProfileEntryMaxPower.
pub const CHARGING_PROFILE_ENTRY_MAX_POWER: u16 = 121;

/// BulkChargingComplete.
pub const BULK_CHARGING_COMPLETE: u16 = 122;

/// ChargingComplete.
pub const CHARGING_COMPLETE: u16 = 123;

/// AC_EVSEStatus.
pub const AC_EVSE_STATUS: u16 = 124;

/// EVSEStatus.
pub const EVSE_STATUS: u16 = 125;

/// EVTargetCurrent.
pub const EV_TARGET_CURRENT: u16 = 126;

/// RemainingTimeToFullSoC.
pub const REMAINING_TIME_TO_FULL_SO_C: u16 = 127;

/// RemainingTimeToBulkSoC.
pub const REMAINING_TIME_TO_BULK_SO_C: u16 = 128;

/// EVTargetVoltage.
pub const EV_TARGET_VOLTAGE: u16 = 129;

/// EVSEPresentVoltage.
pub const EVSE_PRESENT_VOLTAGE: u16 = 130;

/// EVSEPresentCurrent.
pub const EVSE_PRESENT_CURRENT: u16 = 131;

/// EVSECurrentLimitAchieved.
pub const EVSE_CURRENT_LIMIT_ACHIEVED: u16 = 132;

/// EVSEVoltageLimitAchieved.
pub const EVSE_VOLTAGE_LIMIT_ACHIEVED: u16 = 133;

/// EVSEPowerLimitAchieved.
pub const EVSE_POWER_LIMIT_ACHIEVED: u16 = 134;
