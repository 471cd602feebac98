// Kinds of trees, where trees stand, primitives and conclusions.
ghost use Rattle.std.specs.Prelude.{◌≡◌, ◌∷◌, IfOk, IfErr};
ghost use Rattle.yw_codec.specs.Fields.{is_primitive, primitive_bytes, is_conclusion, conclusion_bytes};
ghost use Rattle.yw_codec.specs.Forms.{Stands, NoneStands};

use crate::field::Field;
use crate::reader::{CodecFault, Reader};
use std::alloc::{AllocError, Global};
use yw_base::Name;
use yw_state::{Conclusion, Primitive, PrimitiveList, TreeKind, TreePlace};

impl Field for TreeKind {
    ghost use Rattle.yw_codec.specs.Fields.{is_kind, kind_bytes};
    ghost use Rattle.yw_codec.specs.TreeLaws.{kind_apart};

    ghost is_field = { is_kind };

    ghost bytes = { kind_bytes };

    ghost apart = { kind_apart };

    fn read(_alloc: Global, reader: &mut Reader<'_>) -> Result<TreeKind, CodecFault> {
        match reader.byte()? {
            0 => Ok(TreeKind::Pre),
            1 => Ok(TreeKind::Post),
            2 => Ok(TreeKind::Select),
            3 => Ok(TreeKind::External),
            4 => Ok(TreeKind::Timeout),
            5 => Ok(TreeKind::Abort),
            _ => Err(CodecFault::Bad),
        }
    }

    fn write(&self, out: &mut Vec<u8>) -> Result<(), AllocError> {
        let byte = match self {
            TreeKind::Pre => 0,
            TreeKind::Post => 1,
            TreeKind::Select => 2,
            TreeKind::External => 3,
            TreeKind::Timeout => 4,
            TreeKind::Abort => 5,
        };
        out.push(byte)?;
        Ok(())
    }
}

impl Field for TreePlace {
    ghost use Rattle.yw_codec.specs.Fields.{is_tree, tree_bytes};
    ghost use Rattle.yw_codec.specs.TreeLaws.{tree_apart};

    ghost is_field = { is_tree };

    ghost bytes = { tree_bytes };

    ghost apart = { tree_apart };

    fn read(alloc: Global, reader: &mut Reader<'_>) -> Result<TreePlace, CodecFault> {
        let (spec, (net, (task, kind))) = <(Name, (Option<Name>, (Option<Name>, TreeKind)))>::read(
            alloc, reader,
        )?;
        Ok(TreePlace {
            spec,
            net,
            task,
            kind,
        })
    }

    fn write(&self, out: &mut Vec<u8>) -> Result<(), AllocError> {
        self.spec.write(out)?;
        self.net.write(out)?;
        self.task.write(out)?;
        self.kind.write(out)
    }
}

fn compensate(alloc: Global, reader: &mut Reader<'_>) -> Result<Primitive, CodecFault>
    ensures ok { IfOk result (λ primitive. Stands is_primitive primitive_bytes (8 ∷ reader.old) primitive reader.new) }
    ensures bad { IfErr result (λ fault. fault ≡ CodecFault.Bad → NoneStands is_primitive primitive_bytes (8 ∷ reader.old)) }
{
    let spec = <Name as Field>::read(alloc, reader)?;
    Ok(Primitive::Compensate(spec))
}

impl Field for Primitive {
    ghost use Rattle.yw_codec.specs.TreeLaws.{primitive_apart};

    ghost is_field = { is_primitive };

    ghost bytes = { primitive_bytes };

    ghost apart = { primitive_apart };

    fn read(alloc: Global, reader: &mut Reader<'_>) -> Result<Primitive, CodecFault> {
        match reader.byte()? {
            0 => Ok(Primitive::SuspendItem),
            1 => Ok(Primitive::ContinueItem),
            2 => Ok(Primitive::RestartItem),
            3 => Ok(Primitive::CompleteItem),
            4 => Ok(Primitive::RemoveItem),
            5 => Ok(Primitive::SuspendCase),
            6 => Ok(Primitive::ContinueCase),
            7 => Ok(Primitive::RemoveCase),
            8 => compensate(alloc, reader),
            _ => Err(CodecFault::Bad),
        }
    }

    fn write(&self, out: &mut Vec<u8>) -> Result<(), AllocError> {
        let byte = match self {
            Primitive::SuspendItem => 0,
            Primitive::ContinueItem => 1,
            Primitive::RestartItem => 2,
            Primitive::CompleteItem => 3,
            Primitive::RemoveItem => 4,
            Primitive::SuspendCase => 5,
            Primitive::ContinueCase => 6,
            Primitive::RemoveCase => 7,
            Primitive::Compensate(spec) => {
                out.push(8)?;
                return spec.write(out);
            }
            // No caller writes it: an event that has it has no form.
            Primitive::Unknown(_) => return Err(AllocError),
        };
        out.push(byte)?;
        Ok(())
    }
}

fn worklet(alloc: Global, reader: &mut Reader<'_>) -> Result<Conclusion, CodecFault>
    ensures ok { IfOk result (λ conclusion. Stands is_conclusion conclusion_bytes (0 ∷ reader.old) conclusion reader.new) }
    ensures bad { IfErr result (λ fault. fault ≡ CodecFault.Bad → NoneStands is_conclusion conclusion_bytes (0 ∷ reader.old)) }
{
    let spec = <Name as Field>::read(alloc, reader)?;
    Ok(Conclusion::Worklet(spec))
}

fn exlet(alloc: Global, reader: &mut Reader<'_>) -> Result<Conclusion, CodecFault>
    ensures ok { IfOk result (λ conclusion. Stands is_conclusion conclusion_bytes (1 ∷ reader.old) conclusion reader.new) }
    ensures bad { IfErr result (λ fault. fault ≡ CodecFault.Bad → NoneStands is_conclusion conclusion_bytes (1 ∷ reader.old)) }
{
    let steps = PrimitiveList::read(alloc, reader)?;
    Ok(Conclusion::Exlet(steps))
}

impl Field for Conclusion {
    ghost use Rattle.yw_codec.specs.TreeLaws.{conclusion_apart};

    ghost is_field = { is_conclusion };

    ghost bytes = { conclusion_bytes };

    ghost apart = { conclusion_apart };

    fn read(alloc: Global, reader: &mut Reader<'_>) -> Result<Conclusion, CodecFault> {
        match reader.byte()? {
            0 => worklet(alloc, reader),
            1 => exlet(alloc, reader),
            _ => Err(CodecFault::Bad),
        }
    }

    fn write(&self, out: &mut Vec<u8>) -> Result<(), AllocError> {
        match self {
            Conclusion::Worklet(spec) => {
                out.push(0)?;
                spec.write(out)
            }
            Conclusion::Exlet(steps) => {
                out.push(1)?;
                steps.write(out)
            }
        }
    }
}
