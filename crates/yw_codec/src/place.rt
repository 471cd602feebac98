// Places.
ghost use Rattle.std.specs.Prelude.{◌≡◌, ◌∷◌, IfOk, IfErr};
ghost use Rattle.yw_codec.specs.Fields.{is_place, place_bytes};
ghost use Rattle.yw_codec.specs.Forms.{Stands, NoneStands};

use crate::field::Field;
use crate::reader::{CodecFault, Reader};
use std::alloc::{AllocError, Global};
use yw_base::Name;
use yw_spec::Place;

fn named(alloc: Global, reader: &mut Reader<'_>) -> Result<Place, CodecFault>
    ensures ok { IfOk result (λ place. Stands is_place place_bytes (0 ∷ reader.old) place reader.new) }
    ensures bad { IfErr result (λ fault. fault ≡ CodecFault.Bad → NoneStands is_place place_bytes (0 ∷ reader.old)) }
{
    let name = <Name as Field>::read(alloc, reader)?;
    Ok(Place::Named(name))
}

fn between(alloc: Global, reader: &mut Reader<'_>) -> Result<Place, CodecFault>
    ensures ok { IfOk result (λ place. Stands is_place place_bytes (1 ∷ reader.old) place reader.new) }
    ensures bad { IfErr result (λ fault. fault ≡ CodecFault.Bad → NoneStands is_place place_bytes (1 ∷ reader.old)) }
{
    let (from, to) = <(Name, Name)>::read(alloc, reader)?;
    Ok(Place::Between(from, to))
}

impl Field for Place {
    ghost use Rattle.yw_codec.specs.PlaceLaws.{place_apart};

    ghost is_field = { is_place };

    ghost bytes = { place_bytes };

    ghost apart = { place_apart };

    fn read(alloc: Global, reader: &mut Reader<'_>) -> Result<Place, CodecFault> {
        match reader.byte()? {
            0 => named(alloc, reader),
            1 => between(alloc, reader),
            _ => Err(CodecFault::Bad),
        }
    }

    fn write(&self, out: &mut Vec<u8>) -> Result<(), AllocError> {
        match self {
            Place::Named(name) => {
                out.push(0)?;
                name.write(out)
            }
            Place::Between(from, to) => {
                out.push(1)?;
                from.write(out)?;
                to.write(out)
            }
        }
    }
}
