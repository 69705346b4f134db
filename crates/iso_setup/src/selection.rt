//! Types of elements of the messages of ISO 15118-2.

ghost use Rattle.std.specs.Prelude.{[]};

use arrayvec::ArrayVec;
use exi_documents::Refusal;
use exi_schema::Places;
use iso_parts::message_fields::{
    Elements, Elements2, OptionalValue, Required, RequiredValue, Several,
};
use iso_parts::{PaymentOption, ResponseCode};
use iso_schema::names;
use message_parts::exi_events::EventWriter;
use message_parts::{
    Descent, PutRecord, ReadRecord, Record, put_optional_value, put_record, put_records, put_value,
    whole_record,
};

/// SelectedService.
#[derive(Clone, Copy, Default)]
pub struct SelectedService {
    pub service_id: u16,
    pub parameter_set_id: Option<i16>,
}

impl PutRecord for SelectedService {
    ghost use Rattle.std.specs.Prelude.{refl};
    ghost use Rattle.iso_schema.specs.Declarations.{kinds};
    ghost use Rattle.iso_schema.specs.Selection.{selected_service};
    ghost use Rattle.iso_setup.specs.Selection.{selected_service_parts};

    ghost kinds = { kinds };

    ghost attributes = { [] };

    ghost particles = { selected_service };

    ghost apart = { refl };

    ghost given = { λ v. [] };

    ghost parts = { selected_service_parts };

    fn write<P: Places>(&self, writer: &mut EventWriter<'_, '_, P>) {
        put_value(writer, names::SERVICE_ID, &self.service_id);
        put_optional_value(writer, names::PARAMETER_SET_ID, &self.parameter_set_id);
    }
}

impl<'a> Record<'a> for SelectedService {
    ghost use Rattle.std.proofs.Common.{rules};

    type Made = Elements2<RequiredValue<u16>, OptionalValue<i16, { names::PARAMETER_SET_ID }>>;

    fn of(made: Self::Made) -> SelectedService {
        let Elements2(RequiredValue(service_id), OptionalValue(parameter_set_id)) = made;
        SelectedService {
            service_id,
            parameter_set_id,
        }
    }

    ghost declared = { Prim.search rules };
}

impl<'a> ReadRecord<'a> for SelectedService {
    fn read<P: Places>(descent: &mut Descent<'a, '_, P>) -> Result<SelectedService, Refusal> {
        whole_record(descent)
    }
}

/// SelectedServiceList.
#[derive(Drop)]
pub struct SelectedServiceList {
    /// 1 to 16.
    pub selected_service: ArrayVec<SelectedService, 16>,
}

impl PutRecord for SelectedServiceList {
    ghost use Rattle.std.specs.Prelude.{refl};
    ghost use Rattle.iso_schema.specs.Declarations.{kinds};
    ghost use Rattle.iso_schema.specs.Selection.{selected_service_list};
    ghost use Rattle.iso_setup.specs.Selection.{selected_service_list_parts};

    ghost kinds = { kinds };

    ghost attributes = { [] };

    ghost particles = { selected_service_list };

    ghost apart = { refl };

    ghost given = { λ v. [] };

    ghost parts = { selected_service_list_parts };

    fn write<P: Places>(&self, writer: &mut EventWriter<'_, '_, P>) {
        put_records(writer, names::SELECTED_SERVICE, &self.selected_service);
    }
}

impl<'a> Record<'a> for SelectedServiceList {
    ghost use Rattle.std.proofs.Common.{rules};

    type Made = Elements<Several<SelectedService, 16, { names::SELECTED_SERVICE }>>;

    fn of(made: Self::Made) -> SelectedServiceList {
        let Elements(Several(selected_service)) = made;
        SelectedServiceList { selected_service }
    }

    ghost declared = { Prim.search rules };
}

impl<'a> ReadRecord<'a> for SelectedServiceList {
    fn read<P: Places>(descent: &mut Descent<'a, '_, P>) -> Result<SelectedServiceList, Refusal> {
        whole_record(descent)
    }
}

/// PaymentServiceSelectionReq.
#[derive(Drop)]
pub struct PaymentServiceSelectionReq {
    pub selected_payment_option: PaymentOption,
    pub selected_service_list: SelectedServiceList,
}

impl PutRecord for PaymentServiceSelectionReq {
    ghost use Rattle.std.specs.Prelude.{refl};
    ghost use Rattle.iso_schema.specs.Declarations.{kinds};
    ghost use Rattle.iso_schema.specs.Selection.{payment_service_selection_req};
    ghost use Rattle.iso_setup.specs.Selection.{payment_service_selection_req_parts};

    ghost kinds = { kinds };

    ghost attributes = { [] };

    ghost particles = { payment_service_selection_req };

    ghost apart = { refl };

    ghost given = { λ v. [] };

    ghost parts = { payment_service_selection_req_parts };

    fn write<P: Places>(&self, writer: &mut EventWriter<'_, '_, P>) {
        put_value(
            writer,
            names::SELECTED_PAYMENT_OPTION,
            &self.selected_payment_option,
        );
        put_record(
            writer,
            names::SELECTED_SERVICE_LIST,
            &self.selected_service_list,
        );
    }
}

impl<'a> Record<'a> for PaymentServiceSelectionReq {
    ghost use Rattle.std.proofs.Common.{rules};

    type Made = Elements2<RequiredValue<PaymentOption>, Required<SelectedServiceList>>;

    fn of(made: Self::Made) -> PaymentServiceSelectionReq {
        let Elements2(RequiredValue(selected_payment_option), Required(selected_service_list)) =
            made;
        PaymentServiceSelectionReq {
            selected_payment_option,
            selected_service_list,
        }
    }

    ghost declared = { Prim.search rules };
}

impl<'a> ReadRecord<'a> for PaymentServiceSelectionReq {
    fn read<P: Places>(
        descent: &mut Descent<'a, '_, P>,
    ) -> Result<PaymentServiceSelectionReq, Refusal> {
        whole_record(descent)
    }
}

/// PaymentServiceSelectionRes.
#[derive(Clone, Copy)]
pub struct PaymentServiceSelectionRes {
    pub response_code: ResponseCode,
}

impl PutRecord for PaymentServiceSelectionRes {
    ghost use Rattle.std.specs.Prelude.{refl};
    ghost use Rattle.iso_schema.specs.Declarations.{kinds};
    ghost use Rattle.iso_schema.specs.Selection.{payment_service_selection_res};
    ghost use Rattle.iso_setup.specs.Selection.{payment_service_selection_res_parts};

    ghost kinds = { kinds };

    ghost attributes = { [] };

    ghost particles = { payment_service_selection_res };

    ghost apart = { refl };

    ghost given = { λ v. [] };

    ghost parts = { payment_service_selection_res_parts };

    fn write<P: Places>(&self, writer: &mut EventWriter<'_, '_, P>) {
        put_value(writer, names::RESPONSE_CODE, &self.response_code);
    }
}

impl<'a> Record<'a> for PaymentServiceSelectionRes {
    ghost use Rattle.std.proofs.Common.{rules};

    type Made = Elements<RequiredValue<ResponseCode>>;

    fn of(made: Self::Made) -> PaymentServiceSelectionRes {
        let Elements(RequiredValue(response_code)) = made;
        PaymentServiceSelectionRes { response_code }
    }

    ghost declared = { Prim.search rules };
}

impl<'a> ReadRecord<'a> for PaymentServiceSelectionRes {
    fn read<P: Places>(
        descent: &mut Descent<'a, '_, P>,
    ) -> Result<PaymentServiceSelectionRes, Refusal> {
        whole_record(descent)
    }
}
