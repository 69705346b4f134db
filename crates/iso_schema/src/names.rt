//! The numbers of the names of the messages of ISO 15118-2.

/// V2G_Message.
pub const V2G_MESSAGE: u16 = 0;

/// Header.
pub const HEADER: u16 = 1;

/// Body.
pub const BODY: u16 = 2;

/// SessionID.
pub const SESSION_ID: u16 = 3;

/// Notification.
pub const NOTIFICATION: u16 = 4;

/// Signature.
pub const SIGNATURE: u16 = 5;

/// FaultCode.
pub const FAULT_CODE: u16 = 6;

/// FaultMsg.
pub const FAULT_MSG: u16 = 7;

/// AuthorizationReq.
pub const AUTHORIZATION_REQ: u16 = 8;

/// AuthorizationRes.
pub const AUTHORIZATION_RES: u16 = 9;

/// BodyElement.
pub const BODY_ELEMENT: u16 = 10;

/// CableCheckReq.
pub const CABLE_CHECK_REQ: u16 = 11;

/// CableCheckRes.
pub const CABLE_CHECK_RES: u16 = 12;

/// CertificateInstallationReq.
pub const CERTIFICATE_INSTALLATION_REQ: u16 = 13;

/// CertificateInstallationRes.
pub const CERTIFICATE_INSTALLATION_RES: u16 = 14;

/// CertificateUpdateReq.
pub const CERTIFICATE_UPDATE_REQ: u16 = 15;

/// CertificateUpdateRes.
pub const CERTIFICATE_UPDATE_RES: u16 = 16;

/// ChargeParameterDiscoveryReq.
pub const CHARGE_PARAMETER_DISCOVERY_REQ: u16 = 17;

/// ChargeParameterDiscoveryRes.
pub const CHARGE_PARAMETER_DISCOVERY_RES: u16 = 18;

/// ChargingStatusReq.
pub const CHARGING_STATUS_REQ: u16 = 19;

/// ChargingStatusRes.
pub const CHARGING_STATUS_RES: u16 = 20;

/// CurrentDemandReq.
pub const CURRENT_DEMAND_REQ: u16 = 21;

/// CurrentDemandRes.
pub const CURRENT_DEMAND_RES: u16 = 22;

/// MeteringReceiptReq.
pub const METERING_RECEIPT_REQ: u16 = 23;

/// MeteringReceiptRes.
pub const METERING_RECEIPT_RES: u16 = 24;

/// PaymentDetailsReq.
pub const PAYMENT_DETAILS_REQ: u16 = 25;

/// PaymentDetailsRes.
pub const PAYMENT_DETAILS_RES: u16 = 26;

/// PaymentServiceSelectionReq.
pub const PAYMENT_SERVICE_SELECTION_REQ: u16 = 27;

/// PaymentServiceSelectionRes.
pub const PAYMENT_SERVICE_SELECTION_RES: u16 = 28;

/// PowerDeliveryReq.
pub const POWER_DELIVERY_REQ: u16 = 29;

/// PowerDeliveryRes.
pub const POWER_DELIVERY_RES: u16 = 30;

/// PreChargeReq.
pub const PRE_CHARGE_REQ: u16 = 31;

/// PreChargeRes.
pub const PRE_CHARGE_RES: u16 = 32;

/// ServiceDetailReq.
pub const SERVICE_DETAIL_REQ: u16 = 33;

/// ServiceDetailRes.
pub const SERVICE_DETAIL_RES: u16 = 34;

/// ServiceDiscoveryReq.
pub const SERVICE_DISCOVERY_REQ: u16 = 35;

/// ServiceDiscoveryRes.
pub const SERVICE_DISCOVERY_RES: u16 = 36;

/// SessionSetupReq.
pub const SESSION_SETUP_REQ: u16 = 37;

/// SessionSetupRes.
pub const SESSION_SETUP_RES: u16 = 38;

/// SessionStopReq.
pub const SESSION_STOP_REQ: u16 = 39;

/// SessionStopRes.
pub const SESSION_STOP_RES: u16 = 40;

/// WeldingDetectionReq.
pub const WELDING_DETECTION_REQ: u16 = 41;

/// WeldingDetectionRes.
pub const WELDING_DETECTION_RES: u16 = 42;

/// Multiplier.
pub const MULTIPLIER: u16 = 43;

/// Unit.
pub const UNIT: u16 = 44;

/// Value.
pub const VALUE: u16 = 45;

/// EVReady.
pub const EV_READY: u16 = 46;

/// EVErrorCode.
pub const EV_ERROR_CODE: u16 = 47;

/// EVRESSSOC.
pub const EVRESS_SOC: u16 = 48;

/// NotificationMaxDelay.
pub const NOTIFICATION_MAX_DELAY: u16 = 49;

/// EVSENotification.
pub const EVSE_NOTIFICATION: u16 = 50;

/// RCD.
pub const RCD: u16 = 51;

/// EVSEIsolationStatus.
pub const EVSE_ISOLATION_STATUS: u16 = 52;

/// EVSEStatusCode.
pub const EVSE_STATUS_CODE: u16 = 53;

/// MeterID.
pub const METER_ID: u16 = 54;

/// MeterReading.
pub const METER_READING: u16 = 55;

/// SigMeterReading.
pub const SIG_METER_READING: u16 = 56;

/// MeterStatus.
pub const METER_STATUS: u16 = 57;

/// TMeter.
pub const T_METER: u16 = 58;

/// EVCCID.
pub const EVCCID: u16 = 59;

/// ResponseCode.
pub const RESPONSE_CODE: u16 = 60;

/// EVSEID.
pub const EVSEID: u16 = 61;

/// EVSETimeStamp.
pub const EVSE_TIME_STAMP: u16 = 62;

/// ServiceScope.
pub const SERVICE_SCOPE: u16 = 63;

/// ServiceCategory.
pub const SERVICE_CATEGORY: u16 = 64;

/// PaymentOptionList.
pub const PAYMENT_OPTION_LIST: u16 = 65;

/// ChargeService.
pub const CHARGE_SERVICE: u16 = 66;

/// ServiceList.
pub const SERVICE_LIST: u16 = 67;

/// PaymentOption.
pub const PAYMENT_OPTION: u16 = 68;

/// ServiceID.
pub const SERVICE_ID: u16 = 69;

/// ServiceName.
pub const SERVICE_NAME: u16 = 70;

/// FreeService.
pub const FREE_SERVICE: u16 = 71;

/// SupportedEnergyTransferMode.
pub const SUPPORTED_ENERGY_TRANSFER_MODE: u16 = 72;

/// EnergyTransferMode.
pub const ENERGY_TRANSFER_MODE: u16 = 73;

/// Service.
pub const SERVICE: u16 = 74;

/// ServiceParameterList.
pub const SERVICE_PARAMETER_LIST: u16 = 75;

/// ParameterSet.
pub const PARAMETER_SET: u16 = 76;

/// ParameterSetID.
pub const PARAMETER_SET_ID: u16 = 77;

/// Parameter.
pub const PARAMETER: u16 = 78;

/// Name.
pub const NAME: u16 = 79;

/// boolValue.
pub const BOOL_VALUE: u16 = 80;

/// byteValue.
pub const BYTE_VALUE: u16 = 81;

/// shortValue.
pub const SHORT_VALUE: u16 = 82;

/// intValue.
pub const INT_VALUE: u16 = 83;

/// physicalValue.
pub const PHYSICAL_VALUE: u16 = 84;

/// stringValue.
pub const STRING_VALUE: u16 = 85;

/// SelectedPaymentOption.
pub const SELECTED_PAYMENT_OPTION: u16 = 86;

/// SelectedServiceList.
pub const SELECTED_SERVICE_LIST: u16 = 87;

/// SelectedService.
pub const SELECTED_SERVICE: u16 = 88;

/// Id.
pub const ID: u16 = 89;

/// GenChallenge.
pub const GEN_CHALLENGE: u16 = 90;

/// EVSEProcessing.
pub const EVSE_PROCESSING: u16 = 91;

/// ChargingSession.
pub const CHARGING_SESSION: u16 = 92;

/// MaxEntriesSAScheduleTuple.
pub const MAX_ENTRIES_SA_SCHEDULE_TUPLE: u16 = 93;

/// RequestedEnergyTransferMode.
pub const REQUESTED_ENERGY_TRANSFER_MODE: u16 = 94;

/// AC_EVChargeParameter.
pub const AC_EV_CHARGE_PARAMETER: u16 = 95;

/// DC_EVChargeParameter.
pub const DC_EV_CHARGE_PARAMETER: u16 = 96;

/// EVChargeParameter.
pub const EV_CHARGE_PARAMETER: u16 = 97;

/// DepartureTime.
pub const DEPARTURE_TIME: u16 = 98;

/// EAmount.
pub const E_AMOUNT: u16 = 99;

/// EVMaxVoltage.
pub const EV_MAX_VOLTAGE: u16 = 100;

/// EVMaxCurrent.
pub const EV_MAX_CURRENT: u16 = 101;

/// EVMinCurrent.
pub const EV_MIN_CURRENT: u16 = 102;

/// DC_EVStatus.
pub const DC_EV_STATUS: u16 = 103;

/// EVMaximumCurrentLimit.
pub const EV_MAXIMUM_CURRENT_LIMIT: u16 = 104;

/// EVMaximumPowerLimit.
pub const EV_MAXIMUM_POWER_LIMIT: u16 = 105;

/// EVMaximumVoltageLimit.
pub const EV_MAXIMUM_VOLTAGE_LIMIT: u16 = 106;

/// EVEnergyCapacity.
pub const EV_ENERGY_CAPACITY: u16 = 107;

/// EVEnergyRequest.
pub const EV_ENERGY_REQUEST: u16 = 108;

/// FullSOC.
pub const FULL_SOC: u16 = 109;

/// BulkSOC.
pub const BULK_SOC: u16 = 110;

/// SAScheduleList.
pub const SA_SCHEDULE_LIST: u16 = 111;

/// SASchedules.
pub const SA_SCHEDULES: u16 = 112;

/// AC_EVSEChargeParameter.
pub const AC_EVSE_CHARGE_PARAMETER: u16 = 113;

/// DC_EVSEChargeParameter.
pub const DC_EVSE_CHARGE_PARAMETER: u16 = 114;

/// EVSEChargeParameter.
pub const EVSE_CHARGE_PARAMETER: u16 = 115;

/// SAScheduleTuple.
pub const SA_SCHEDULE_TUPLE: u16 = 116;

/// SAScheduleTupleID.
pub const SA_SCHEDULE_TUPLE_ID: u16 = 117;

/// PMaxSchedule.
pub const P_MAX_SCHEDULE: u16 = 118;

/// SalesTariff.
pub const SALES_TARIFF: u16 = 119;

/// PMaxScheduleEntry.
pub const P_MAX_SCHEDULE_ENTRY: u16 = 120;

/// RelativeTimeInterval.
pub const RELATIVE_TIME_INTERVAL: u16 = 121;

/// TimeInterval.
pub const TIME_INTERVAL: u16 = 122;

/// PMax.
pub const P_MAX: u16 = 123;

/// start.
pub const START: u16 = 124;

/// duration.
pub const DURATION: u16 = 125;

/// AC_EVSEStatus.
pub const AC_EVSE_STATUS: u16 = 126;

/// EVSENominalVoltage.
pub const EVSE_NOMINAL_VOLTAGE: u16 = 127;

/// EVSEMaxCurrent.
pub const EVSE_MAX_CURRENT: u16 = 128;

/// DC_EVSEStatus.
pub const DC_EVSE_STATUS: u16 = 129;

/// EVSEMaximumCurrentLimit.
pub const EVSE_MAXIMUM_CURRENT_LIMIT: u16 = 130;

/// EVSEMaximumPowerLimit.
pub const EVSE_MAXIMUM_POWER_LIMIT: u16 = 131;

/// EVSEMaximumVoltageLimit.
pub const EVSE_MAXIMUM_VOLTAGE_LIMIT: u16 = 132;

/// EVSEMinimumCurrentLimit.
pub const EVSE_MINIMUM_CURRENT_LIMIT: u16 = 133;

/// EVSEMinimumVoltageLimit.
pub const EVSE_MINIMUM_VOLTAGE_LIMIT: u16 = 134;

/// EVSECurrentRegulationTolerance.
pub const EVSE_CURRENT_REGULATION_TOLERANCE: u16 = 135;

/// EVSEPeakCurrentRipple.
pub const EVSE_PEAK_CURRENT_RIPPLE: u16 = 136;

/// EVSEEnergyToBeDelivered.
pub const EVSE_ENERGY_TO_BE_DELIVERED: u16 = 137;

/// ChargeProgress.
pub const CHARGE_PROGRESS: u16 = 138;

/// ChargingProfile.
pub const CHARGING_PROFILE: u16 = 139;

/// DC_EVPowerDeliveryParameter.
pub const DC_EV_POWER_DELIVERY_PARAMETER: u16 = 140;

/// EVPowerDeliveryParameter.
pub const EV_POWER_DELIVERY_PARAMETER: u16 = 141;

/// ProfileEntry.
pub const PROFILE_ENTRY: u16 = 142;

/// ChargingProfileEntryStart.
pub const CHARGING_PROFILE_ENTRY_START: u16 = 143;

/// ChargingProfileEntryMaxPower.
pub const CHARGING_PROFILE_ENTRY_MAX_POWER: u16 = 144;

/// ChargingProfileEntryMaxNumberOfPhasesInUse.
pub const CHARGING_PROFILE_ENTRY_MAX_NUMBER_OF_PHASES_IN_USE: u16 = 145;

/// BulkChargingComplete.
pub const BULK_CHARGING_COMPLETE: u16 = 146;

/// ChargingComplete.
pub const CHARGING_COMPLETE: u16 = 147;

/// EVSEStatus.
pub const EVSE_STATUS: u16 = 148;

/// MeterInfo.
pub const METER_INFO: u16 = 149;

/// ReceiptRequired.
pub const RECEIPT_REQUIRED: u16 = 150;

/// EVTargetVoltage.
pub const EV_TARGET_VOLTAGE: u16 = 151;

/// EVTargetCurrent.
pub const EV_TARGET_CURRENT: u16 = 152;

/// EVSEPresentVoltage.
pub const EVSE_PRESENT_VOLTAGE: u16 = 153;

/// RemainingTimeToFullSoC.
pub const REMAINING_TIME_TO_FULL_SO_C: u16 = 154;

/// RemainingTimeToBulkSoC.
pub const REMAINING_TIME_TO_BULK_SO_C: u16 = 155;

/// EVSEPresentCurrent.
pub const EVSE_PRESENT_CURRENT: u16 = 156;

/// EVSECurrentLimitAchieved.
pub const EVSE_CURRENT_LIMIT_ACHIEVED: u16 = 157;

/// EVSEVoltageLimitAchieved.
pub const EVSE_VOLTAGE_LIMIT_ACHIEVED: u16 = 158;

/// EVSEPowerLimitAchieved.
pub const EVSE_POWER_LIMIT_ACHIEVED: u16 = 159;
