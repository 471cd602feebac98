// Values.
ghost use Rattle.std.specs.Prelude.{◌≡◌};

use crate::field::Field;
use crate::reader::{CodecFault, Reader};
use std::alloc::{AllocError, Global};
use yw_base::{IntList, Text, TextList, Value};

impl Field for Value {
    ghost use Rattle.yw_codec.specs.Fields.{is_value, value_bytes};
    ghost use Rattle.yw_codec.specs.ValueLaws.{value_apart};

    ghost is_field = { is_value };

    ghost bytes = { value_bytes };

    ghost apart = { value_apart };

    fn read(alloc: Global, reader: &mut Reader<'_>) -> Result<Value, CodecFault> {
        match reader.byte()? {
            0 => Ok(Value::Bool(bool::read(alloc, reader)?)),
            1 => Ok(Value::Int(i64::read(alloc, reader)?)),
            2 => Ok(Value::Text(Text::read(alloc, reader)?)),
            3 => Ok(Value::Ints(IntList::read(alloc, reader)?)),
            4 => Ok(Value::Texts(TextList::read(alloc, reader)?)),
            _ => Err(CodecFault::Bad),
        }
    }

    fn write(&self, out: &mut Vec<u8>) -> Result<(), AllocError> {
        match self {
            Value::Bool(flag) => {
                out.push(0)?;
                flag.write(out)
            }
            Value::Int(number) => {
                out.push(1)?;
                number.write(out)
            }
            Value::Text(text) => {
                out.push(2)?;
                text.write(out)
            }
            Value::Ints(numbers) => {
                out.push(3)?;
                numbers.write(out)
            }
            Value::Texts(texts) => {
                out.push(4)?;
                texts.write(out)
            }
        }
    }
}
