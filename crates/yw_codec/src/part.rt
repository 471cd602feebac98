// What is said of items, of checks that are due, and of cases that are over.
use crate::field::Field;
use crate::reader::{CodecFault, Reader};
use std::alloc::{AllocError, Global};
use yw_state::{Checks, Stage, Way};

impl Field for Stage {
    ghost use Rattle.yw_codec.specs.Parts.{is_stage, stage_bytes, stage_apart};

    ghost is_field = { is_stage };

    ghost bytes = { stage_bytes };

    ghost apart = { stage_apart };

    fn read(_alloc: Global, reader: &mut Reader<'_>) -> Result<Stage, CodecFault> {
        match reader.byte()? {
            0 => Ok(Stage::Ready),
            1 => Ok(Stage::Executing),
            2 => Ok(Stage::Completed),
            _ => Err(CodecFault::Bad),
        }
    }

    fn write(&self, out: &mut Vec<u8>) -> Result<(), AllocError> {
        let byte = match self {
            Stage::Ready => 0,
            Stage::Executing => 1,
            Stage::Completed => 2,
        };
        out.push(byte)?;
        Ok(())
    }
}

impl Field for Way {
    ghost use Rattle.yw_codec.specs.Parts.{is_way, way_bytes, way_apart};

    ghost is_field = { is_way };

    ghost bytes = { way_bytes };

    ghost apart = { way_apart };

    fn read(_alloc: Global, reader: &mut Reader<'_>) -> Result<Way, CodecFault> {
        match reader.byte()? {
            0 => Ok(Way::Finished),
            1 => Ok(Way::Cancelled),
            2 => Ok(Way::Removed),
            _ => Err(CodecFault::Bad),
        }
    }

    fn write(&self, out: &mut Vec<u8>) -> Result<(), AllocError> {
        let byte = match self {
            Way::Finished => 0,
            Way::Cancelled => 1,
            Way::Removed => 2,
        };
        out.push(byte)?;
        Ok(())
    }
}

impl Field for Checks {
    ghost use Rattle.yw_codec.specs.Parts.{is_checks, checks_bytes, checks_apart};

    ghost is_field = { is_checks };

    ghost bytes = { checks_bytes };

    ghost apart = { checks_apart };

    fn read(_alloc: Global, reader: &mut Reader<'_>) -> Result<Checks, CodecFault> {
        let (pre, select, post) = match reader.byte()? {
            0 => (false, false, false),
            1 => (true, false, false),
            2 => (false, true, false),
            3 => (true, true, false),
            4 => (false, false, true),
            5 => (true, false, true),
            6 => (false, true, true),
            7 => (true, true, true),
            _ => return Err(CodecFault::Bad),
        };
        Ok(Checks { pre, select, post })
    }

    fn write(&self, out: &mut Vec<u8>) -> Result<(), AllocError> {
        out.push(u8::from(self.pre) + 2 * u8::from(self.select) + 4 * u8::from(self.post))?;
        Ok(())
    }
}
