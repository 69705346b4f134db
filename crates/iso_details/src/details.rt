//! Types of elements of the messages of ISO 15118-2.

ghost use Rattle.std.specs.Prelude.{[]};

use arrayvec::ArrayVec;
use exi_documents::Refusal;
use exi_schema::Places;
use iso_parts::message_fields::{Elements, OneOf, RequiredValue, WithAttribute};
use iso_parts::message_parts::exi_events::EventWriter;
use iso_parts::message_parts::{
    Choice, Descent, LargeRecord, PutChoice, PutRecord, ReadRecord, Record, Text, first_child,
    member, member_value, optional_here, put_attribute, put_choice, put_optional, put_record,
    put_records, put_value, records_here, value, whole_record,
};
use iso_parts::{PhysicalValue, ResponseCode};
use iso_schema::names;

/// One of the elements of Parameter.
#[derive(Drop)]
pub enum ParameterValue<'a> {
    Bool(bool),
    Byte(i8),
    Short(i16),
    Int(i32),
    Physical(PhysicalValue),
    /// At most 64 code points.
    String(Text<'a>),
}

impl<'a> Default for ParameterValue<'a> {
    fn default() -> ParameterValue<'a> {
        ParameterValue::Bool(false)
    }
}

impl PutChoice for ParameterValue<'_> {
    ghost use Rattle.iso_schema.specs.Declarations.{kinds};
    ghost use Rattle.iso_details.specs.Details.{parameter_value_members, parameter_value_name, parameter_value_inside};

    ghost kinds = { kinds };

    ghost members = { parameter_value_members };

    ghost name = { parameter_value_name };

    ghost inside = { parameter_value_inside };

    fn write_member<P: Places>(&self, writer: &mut EventWriter<'_, '_, P>) {
        match self {
            ParameterValue::Bool(bool) => put_value(writer, names::BOOL_VALUE, bool),
            ParameterValue::Byte(byte) => put_value(writer, names::BYTE_VALUE, byte),
            ParameterValue::Short(short) => put_value(writer, names::SHORT_VALUE, short),
            ParameterValue::Int(int) => put_value(writer, names::INT_VALUE, int),
            ParameterValue::Physical(physical) => put_record(
                writer,
                names::PHYSICAL_VALUE,
                physical,
            ),
            ParameterValue::String(string) => put_value(writer, names::STRING_VALUE, string),
        }
    }
}

impl<'a> Choice<'a> for ParameterValue<'a> {
    fn read_member<P: Places>(
        descent: &mut Descent<'a, '_, P>,
    ) -> Result<ParameterValue<'a>, Refusal> {
        if descent.is_at(names::BOOL_VALUE) {
            Ok(ParameterValue::Bool(member_value(descent)?))
        } else if descent.is_at(names::BYTE_VALUE) {
            Ok(ParameterValue::Byte(member_value(descent)?))
        } else if descent.is_at(names::SHORT_VALUE) {
            Ok(ParameterValue::Short(member_value(descent)?))
        } else if descent.is_at(names::INT_VALUE) {
            Ok(ParameterValue::Int(member_value(descent)?))
        } else if descent.is_at(names::PHYSICAL_VALUE) {
            Ok(ParameterValue::Physical(member(descent)?))
        } else {
            Ok(ParameterValue::String(member_value(descent)?))
        }
    }
}

/// Parameter.
#[derive(Drop, Default)]
pub struct Parameter<'a> {
    /// At most 64 code points.
    pub name: Text<'a>,
    pub value: ParameterValue<'a>,
}

impl PutRecord for Parameter<'_> {
    ghost use Rattle.std.specs.Prelude.{refl};
    ghost use Rattle.iso_schema.specs.Declarations.{kinds};
    ghost use Rattle.iso_schema.specs.Selection.{parameter};
    ghost use Rattle.iso_details.specs.Details.{parameter_given, parameter_parts, parameter_attributes};

    ghost kinds = { kinds };

    ghost attributes = { parameter_attributes };

    ghost particles = { parameter };

    ghost apart = { refl };

    ghost given = { parameter_given };

    ghost parts = { parameter_parts };

    fn write<P: Places>(&self, writer: &mut EventWriter<'_, '_, P>) {
        put_attribute(writer, names::NAME, &self.name);
        put_choice(writer, &self.value);
    }
}

impl<'a> Record<'a> for Parameter<'a> {
    ghost use Rattle.std.proofs.Common.{rules};

    type Made = WithAttribute<Text<'a>, OneOf<ParameterValue<'a>>>;

    fn of(made: Self::Made) -> Parameter<'a> {
        let WithAttribute(name, OneOf(value)) = made;
        Parameter { name, value }
    }

    ghost declared = { Prim.search rules };
}

impl<'a> ReadRecord<'a> for Parameter<'a> {
    fn read<P: Places>(descent: &mut Descent<'a, '_, P>) -> Result<Parameter<'a>, Refusal> {
        whole_record(descent)
    }
}

impl<'a> LargeRecord<'a> for Parameter<'a> {
    fn read_here<P: Places>(&mut self, descent: &mut Descent<'a, '_, P>) -> Result<(), Refusal> {
        *self = whole_record(descent)?;
        Ok(())
    }
}

/// ParameterSet.
#[derive(Drop, Default)]
pub struct ParameterSet<'a> {
    pub parameter_set_id: i16,
    /// 1 to 16.
    pub parameter: ArrayVec<Parameter<'a>, 16>,
}

impl PutRecord for ParameterSet<'_> {
    ghost use Rattle.std.specs.Prelude.{refl};
    ghost use Rattle.iso_schema.specs.Declarations.{kinds};
    ghost use Rattle.iso_schema.specs.Selection.{parameter_set};
    ghost use Rattle.iso_details.specs.Details.{parameter_set_parts};

    ghost kinds = { kinds };

    ghost attributes = { [] };

    ghost particles = { parameter_set };

    ghost apart = { refl };

    ghost given = { λ v. [] };

    ghost parts = { parameter_set_parts };

    fn write<P: Places>(&self, writer: &mut EventWriter<'_, '_, P>) {
        put_value(writer, names::PARAMETER_SET_ID, &self.parameter_set_id);
        put_records(writer, names::PARAMETER, &self.parameter);
    }
}

impl<'a> LargeRecord<'a> for ParameterSet<'a> {
    fn read_here<P: Places>(&mut self, descent: &mut Descent<'a, '_, P>) -> Result<(), Refusal> {
        first_child(descent)?;
        self.parameter_set_id = value(descent)?;
        records_here(&mut self.parameter, descent, names::PARAMETER)?;
        Ok(())
    }
}

/// ServiceParameterList.
#[derive(Drop, Default)]
pub struct ServiceParameterList<'a> {
    /// 1 to 16.
    pub parameter_set: ArrayVec<ParameterSet<'a>, 16>,
}

impl PutRecord for ServiceParameterList<'_> {
    ghost use Rattle.std.specs.Prelude.{refl};
    ghost use Rattle.iso_schema.specs.Declarations.{kinds};
    ghost use Rattle.iso_schema.specs.Selection.{service_parameter_list};
    ghost use Rattle.iso_details.specs.Details.{service_parameter_list_parts};

    ghost kinds = { kinds };

    ghost attributes = { [] };

    ghost particles = { service_parameter_list };

    ghost apart = { refl };

    ghost given = { λ v. [] };

    ghost parts = { service_parameter_list_parts };

    fn write<P: Places>(&self, writer: &mut EventWriter<'_, '_, P>) {
        put_records(writer, names::PARAMETER_SET, &self.parameter_set);
    }
}

impl<'a> LargeRecord<'a> for ServiceParameterList<'a> {
    fn read_here<P: Places>(&mut self, descent: &mut Descent<'a, '_, P>) -> Result<(), Refusal> {
        first_child(descent)?;
        records_here(&mut self.parameter_set, descent, names::PARAMETER_SET)?;
        Ok(())
    }
}

/// ServiceDetailReq.
#[derive(Clone, Copy)]
pub struct ServiceDetailReq {
    pub service_id: u16,
}

impl PutRecord for ServiceDetailReq {
    ghost use Rattle.std.specs.Prelude.{refl};
    ghost use Rattle.iso_schema.specs.Declarations.{kinds};
    ghost use Rattle.iso_schema.specs.Selection.{service_detail_req};
    ghost use Rattle.iso_details.specs.Details.{service_detail_req_parts};

    ghost kinds = { kinds };

    ghost attributes = { [] };

    ghost particles = { service_detail_req };

    ghost apart = { refl };

    ghost given = { λ v. [] };

    ghost parts = { service_detail_req_parts };

    fn write<P: Places>(&self, writer: &mut EventWriter<'_, '_, P>) {
        put_value(writer, names::SERVICE_ID, &self.service_id);
    }
}

impl<'a> Record<'a> for ServiceDetailReq {
    ghost use Rattle.std.proofs.Common.{rules};

    type Made = Elements<RequiredValue<u16>>;

    fn of(made: Self::Made) -> ServiceDetailReq {
        let Elements(RequiredValue(service_id)) = made;
        ServiceDetailReq { service_id }
    }

    ghost declared = { Prim.search rules };
}

impl<'a> ReadRecord<'a> for ServiceDetailReq {
    fn read<P: Places>(descent: &mut Descent<'a, '_, P>) -> Result<ServiceDetailReq, Refusal> {
        whole_record(descent)
    }
}

/// ServiceDetailRes.
#[derive(Drop, Default)]
pub struct ServiceDetailRes<'a> {
    pub response_code: ResponseCode,
    pub service_id: u16,
    pub service_parameter_list: Option<ServiceParameterList<'a>>,
}

impl PutRecord for ServiceDetailRes<'_> {
    ghost use Rattle.std.specs.Prelude.{refl};
    ghost use Rattle.iso_schema.specs.Declarations.{kinds};
    ghost use Rattle.iso_schema.specs.Selection.{service_detail_res};
    ghost use Rattle.iso_details.specs.Details.{service_detail_res_parts};

    ghost kinds = { kinds };

    ghost attributes = { [] };

    ghost particles = { service_detail_res };

    ghost apart = { refl };

    ghost given = { λ v. [] };

    ghost parts = { service_detail_res_parts };

    fn write<P: Places>(&self, writer: &mut EventWriter<'_, '_, P>) {
        put_value(writer, names::RESPONSE_CODE, &self.response_code);
        put_value(writer, names::SERVICE_ID, &self.service_id);
        put_optional(
            writer,
            names::SERVICE_PARAMETER_LIST,
            &self.service_parameter_list,
        );
    }
}

impl<'a> LargeRecord<'a> for ServiceDetailRes<'a> {
    fn read_here<P: Places>(&mut self, descent: &mut Descent<'a, '_, P>) -> Result<(), Refusal> {
        first_child(descent)?;
        self.response_code = value(descent)?;
        self.service_id = value(descent)?;
        optional_here(
            &mut self.service_parameter_list,
            descent,
            names::SERVICE_PARAMETER_LIST,
        )?;
        Ok(())
    }
}
