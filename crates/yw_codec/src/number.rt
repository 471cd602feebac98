// Numbers.
ghost use Rattle.std.specs.Prelude.{◌≡◌, ◌++◌, ℕ, length};
ghost use Rattle.byteorder.specs.Endian.{big_bytes};

use crate::field::Field;
use crate::reader::{CodecFault, Reader};
use byteorder::{BigEndian, ByteOrder};
use std::alloc::{AllocError, Global};

// The number in four bytes.
fn be_u32(field: &[u8]) -> u32
    requires { length field.now ≡ 4 }
    ensures { field.now ≡ big_bytes 4 result }
{
    u32::from_be_bytes([field[0], field[1], field[2], field[3]])
}

// The number in eight bytes.
fn be_u64(field: &[u8]) -> u64
    requires { length field.now ≡ 8 }
    ensures { field.now ≡ big_bytes 8 result }
{
    u64::from_be_bytes([
        field[0], field[1], field[2], field[3], field[4], field[5], field[6], field[7],
    ])
}

impl Field for u32 {
    ghost use Rattle.std.specs.Prelude.{◌≡◌, IfErr, IfOk};
    ghost use Rattle.yw_codec.specs.Fields.{is_u32, u32_bytes};
    ghost use Rattle.yw_codec.specs.Forms.{NoneStands, Stands};
    ghost use Rattle.yw_codec.specs.FieldLaws.{u32_apart};

    ghost is_field = { is_u32 };

    ghost bytes = { u32_bytes };

    ghost apart = { u32_apart };

    fn read(_alloc: Global, reader: &mut Reader<'_>) -> Result<u32, CodecFault>
        ensures ok { IfOk result (λ value. Stands is_u32 u32_bytes reader.old value reader.new) }
        ensures bad { IfErr result (λ fault. fault ≡ CodecFault.Bad → NoneStands is_u32 u32_bytes reader.old) }
        ensures takes_none { IfErr result (λ fault. fault ≡ CodecFault.Bad) }
    {
        Ok(be_u32(reader.take(4)?))
    }

    fn write(&self, out: &mut Vec<u8>) -> Result<(), AllocError> {
        let number = *self;
        let mut field = [0; 4];
        BigEndian::write_u32(&mut field, number);
        out.extend_from_slice(&field)
    }
}

impl Field for u64 {
    ghost use Rattle.std.specs.Prelude.{◌≡◌, IfErr, IfOk};
    ghost use Rattle.yw_codec.specs.Fields.{is_u64, u64_bytes};
    ghost use Rattle.yw_codec.specs.Forms.{NoneStands, Stands};
    ghost use Rattle.yw_codec.specs.FieldLaws.{u64_apart};

    ghost is_field = { is_u64 };

    ghost bytes = { u64_bytes };

    ghost apart = { u64_apart };

    fn read(_alloc: Global, reader: &mut Reader<'_>) -> Result<u64, CodecFault>
        ensures ok { IfOk result (λ value. Stands is_u64 u64_bytes reader.old value reader.new) }
        ensures bad { IfErr result (λ fault. fault ≡ CodecFault.Bad → NoneStands is_u64 u64_bytes reader.old) }
        ensures takes_none { IfErr result (λ fault. fault ≡ CodecFault.Bad) }
    {
        Ok(be_u64(reader.take(8)?))
    }

    fn write(&self, out: &mut Vec<u8>) -> Result<(), AllocError> {
        let number = *self;
        let mut field = [0; 8];
        BigEndian::write_u64(&mut field, number);
        out.extend_from_slice(&field)
    }
}

impl Field for i64 {
    ghost use Rattle.std.specs.Prelude.{◌≡◌, IfErr, IfOk};
    ghost use Rattle.yw_codec.specs.Fields.{is_i64, i64_bytes};
    ghost use Rattle.yw_codec.specs.Forms.{NoneStands, Stands};
    ghost use Rattle.yw_codec.specs.FieldLaws.{i64_apart};

    ghost is_field = { is_i64 };

    ghost bytes = { i64_bytes };

    ghost apart = { i64_apart };

    fn read(alloc: Global, reader: &mut Reader<'_>) -> Result<i64, CodecFault>
        ensures ok { IfOk result (λ value. Stands is_i64 i64_bytes reader.old value reader.new) }
        ensures bad { IfErr result (λ fault. fault ≡ CodecFault.Bad → NoneStands is_i64 i64_bytes reader.old) }
        ensures takes_none { IfErr result (λ fault. fault ≡ CodecFault.Bad) }
    {
        let number = u64::read(alloc, reader)?;
        Ok(number.cast_signed())
    }

    fn write(&self, out: &mut Vec<u8>) -> Result<(), AllocError> {
        let number = *self;
        let mut field = [0; 8];
        BigEndian::write_i64(&mut field, number);
        out.extend_from_slice(&field)
    }
}

impl Field for bool {
    ghost use Rattle.std.specs.Prelude.{◌≡◌, IfErr, IfOk};
    ghost use Rattle.yw_codec.specs.Fields.{is_flag, flag_bytes};
    ghost use Rattle.yw_codec.specs.Forms.{NoneStands, Stands};
    ghost use Rattle.yw_codec.specs.FieldLaws.{flag_apart};

    ghost is_field = { is_flag };

    ghost bytes = { flag_bytes };

    ghost apart = { flag_apart };

    fn read(_alloc: Global, reader: &mut Reader<'_>) -> Result<bool, CodecFault>
        ensures ok { IfOk result (λ value. Stands is_flag flag_bytes reader.old value reader.new) }
        ensures bad { IfErr result (λ fault. fault ≡ CodecFault.Bad → NoneStands is_flag flag_bytes reader.old) }
        ensures takes_none { IfErr result (λ fault. fault ≡ CodecFault.Bad) }
    {
        match reader.byte()? {
            0 => Ok(false),
            1 => Ok(true),
            _ => Err(CodecFault::Bad),
        }
    }

    fn write(&self, out: &mut Vec<u8>) -> Result<(), AllocError> {
        out.push(u8::from(*self))?;
        Ok(())
    }
}
