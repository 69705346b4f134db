//! Numbers and truths as values.

ghost use Rattle.std.specs.Prelude.{pos};
ghost use Rattle.exi_events.specs.Trees.{Number, Truth};
ghost use Rattle.message_parts.specs.Values.{is_bool, is_signed, is_unsigned};

use crate::part::Simple;
use exi_events::Value;

impl<'a> Simple<'a> for u8 {
    ghost takes = { is_unsigned 8 };

    ghost value = { λ x. Number (pos x) };

    fn as_value(&self) -> Value<'_> {
        Value::Number(i128::from(*self))
    }

    fn of(read: Value<'a>) -> u8 {
        match read {
            Value::Number(number) => u8::try_from(number).unwrap_or(0),
            _ => 0,
        }
    }
}

impl<'a> Simple<'a> for u16 {
    ghost takes = { is_unsigned 16 };

    ghost value = { λ x. Number (pos x) };

    fn as_value(&self) -> Value<'_> {
        Value::Number(i128::from(*self))
    }

    fn of(read: Value<'a>) -> u16 {
        match read {
            Value::Number(number) => u16::try_from(number).unwrap_or(0),
            _ => 0,
        }
    }
}

impl<'a> Simple<'a> for u32 {
    ghost takes = { is_unsigned 32 };

    ghost value = { λ x. Number (pos x) };

    fn as_value(&self) -> Value<'_> {
        Value::Number(i128::from(*self))
    }

    fn of(read: Value<'a>) -> u32 {
        match read {
            Value::Number(number) => u32::try_from(number).unwrap_or(0),
            _ => 0,
        }
    }
}

impl<'a> Simple<'a> for u64 {
    ghost takes = { is_unsigned 64 };

    ghost value = { λ x. Number (pos x) };

    fn as_value(&self) -> Value<'_> {
        Value::Number(i128::from(*self))
    }

    fn of(read: Value<'a>) -> u64 {
        match read {
            Value::Number(number) => u64::try_from(number).unwrap_or(0),
            _ => 0,
        }
    }
}

impl<'a> Simple<'a> for i8 {
    ghost takes = { is_signed 7 };

    ghost value = { λ x. Number x };

    fn as_value(&self) -> Value<'_> {
        Value::Number(i128::from(*self))
    }

    fn of(read: Value<'a>) -> i8 {
        match read {
            Value::Number(number) => i8::try_from(number).unwrap_or(0),
            _ => 0,
        }
    }
}

impl<'a> Simple<'a> for i16 {
    ghost takes = { is_signed 15 };

    ghost value = { λ x. Number x };

    fn as_value(&self) -> Value<'_> {
        Value::Number(i128::from(*self))
    }

    fn of(read: Value<'a>) -> i16 {
        match read {
            Value::Number(number) => i16::try_from(number).unwrap_or(0),
            _ => 0,
        }
    }
}

impl<'a> Simple<'a> for i32 {
    ghost takes = { is_signed 31 };

    ghost value = { λ x. Number x };

    fn as_value(&self) -> Value<'_> {
        Value::Number(i128::from(*self))
    }

    fn of(read: Value<'a>) -> i32 {
        match read {
            Value::Number(number) => i32::try_from(number).unwrap_or(0),
            _ => 0,
        }
    }
}

impl<'a> Simple<'a> for i64 {
    ghost takes = { is_signed 63 };

    ghost value = { λ x. Number x };

    fn as_value(&self) -> Value<'_> {
        Value::Number(i128::from(*self))
    }

    fn of(read: Value<'a>) -> i64 {
        match read {
            Value::Number(number) => i64::try_from(number).unwrap_or(0),
            _ => 0,
        }
    }
}

impl<'a> Simple<'a> for bool {
    ghost takes = { is_bool };

    ghost value = { λ x. Truth x };

    fn as_value(&self) -> Value<'_> {
        Value::Bool(*self)
    }

    fn of(read: Value<'a>) -> bool {
        match read {
            Value::Bool(truth) => truth,
            _ => false,
        }
    }
}
