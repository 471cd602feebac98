// Names, texts and identities.
ghost use Rattle.std.specs.Prelude.{◌≡◌, ◌∷◌, IfOk, IfErr};
ghost use Rattle.yw_base.specs.Spelling.{is_name};
ghost use Rattle.yw_codec.specs.Fields.{name_bytes};
ghost use Rattle.yw_codec.specs.Forms.{Stands, NoneStands};

use crate::field::{Field, read_short_list, write_short_list};
use crate::reader::{CodecFault, Reader};
use std::alloc::{AllocError, Global};
use yw_base::{Ident, Items, Name, NameFault, Text};

/// The name of this length at the front.
fn name_of(alloc: Global, reader: &mut Reader<'_>, size: u8) -> Result<Name, CodecFault>
    ensures ok { IfOk result (λ name. Stands is_name name_bytes (size ∷ reader.old) name reader.new) }
    ensures bad { IfErr result (λ fault. fault ≡ CodecFault.Bad → NoneStands is_name name_bytes (size ∷ reader.old)) }
{
    let field = reader.take(usize::from(size))?;
    let Ok(text) = std::str::from_utf8(field) else {
        return Err(CodecFault::Bad);
    };
    match Name::read(alloc, text) {
        Ok(name) => Ok(name),
        Err(NameFault::Shape) => Err(CodecFault::Bad),
        Err(NameFault::Memory) => Err(CodecFault::Memory),
    }
}

impl Field for Name {
    ghost use Rattle.yw_codec.specs.FieldLaws.{name_apart};

    ghost is_field = { is_name };

    ghost bytes = { name_bytes };

    ghost apart = { name_apart };

    fn read(alloc: Global, reader: &mut Reader<'_>) -> Result<Name, CodecFault> {
        let size = reader.byte()?;
        name_of(alloc, reader, size)
    }

    fn write(&self, out: &mut Vec<u8>) -> Result<(), AllocError> {
        let text = self.as_str();
        out.push(text.len() as u8)?;
        out.extend_from_slice(text.as_bytes())
    }
}

impl Field for Option<Name> {
    ghost use Rattle.yw_codec.specs.Fields.{is_name_or_none, name_or_none_bytes};
    ghost use Rattle.yw_codec.specs.FieldLaws.{name_or_none_apart};

    ghost is_field = { is_name_or_none };

    ghost bytes = { name_or_none_bytes };

    ghost apart = { name_or_none_apart };

    fn read(alloc: Global, reader: &mut Reader<'_>) -> Result<Option<Name>, CodecFault> {
        match reader.byte()? {
            0 => Ok(None),
            size => Ok(Some(name_of(alloc, reader, size)?)),
        }
    }

    fn write(&self, out: &mut Vec<u8>) -> Result<(), AllocError> {
        match self {
            Some(name) => name.write(out),
            None => {
                out.push(0)?;
                Ok(())
            }
        }
    }
}

impl Field for Text {
    ghost use Rattle.yw_codec.specs.Fields.{is_text, text_bytes};
    ghost use Rattle.yw_codec.specs.FieldLaws.{text_apart};

    ghost is_field = { is_text };

    ghost bytes = { text_bytes };

    ghost apart = { text_apart };

    fn read(alloc: Global, reader: &mut Reader<'_>) -> Result<Text, CodecFault> {
        let size = u32::read(alloc, reader)?;
        let field = reader.take(size as usize)?;
        match std::str::from_utf8(field) {
            Ok(text) => Ok(Text::copy_of(alloc, text)?),
            Err(_) => Err(CodecFault::Bad),
        }
    }

    #[tactic(auto, using(crate::proofs::Texts::text_is))]
    fn write(&self, out: &mut Vec<u8>) -> Result<(), AllocError> {
        let text = self.as_str();
        let Ok(size) = u32::try_from(text.len()) else {
            return Err(AllocError);
        };
        size.write(out)?;
        out.extend_from_slice(text.as_bytes())
    }
}

impl Field for Ident {
    ghost use Rattle.yw_base.specs.Identity.{is_identity};
    ghost use Rattle.yw_codec.specs.Fields.{identity_bytes};
    ghost use Rattle.yw_codec.specs.ListLaws.{identity_apart};

    ghost is_field = { is_identity };

    ghost bytes = { identity_bytes };

    ghost apart = { identity_apart };

    fn read(alloc: Global, reader: &mut Reader<'_>) -> Result<Ident, CodecFault> {
        let numbers: Items<u64> = read_short_list(alloc, reader)?;
        match Ident::from_numbers(numbers.into_vec()) {
            Some(ident) => Ok(ident),
            None => Err(CodecFault::Bad),
        }
    }

    fn write(&self, out: &mut Vec<u8>) -> Result<(), AllocError> {
        write_short_list(out, self.numbers())
    }
}
