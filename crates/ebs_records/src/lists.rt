// Digests, texts and lists.
ghost use Rattle.std.specs.Prelude.{◌≡◌, ◌++◌, ◌<◌, ◌^◌, length, All, OnOk};
ghost use Rattle.std.specs.List.{flat_map, AllByRecursion};
ghost use Rattle.ebs_records.specs.inner.Reading.{Reads};

use crate::codec::{Codec, Unread};
use crate::input::Input;
use ebs_model::Text;
use ebs_tables::Sequence;
use std::alloc::{AllocError, Global};

impl Codec for Text {
    ghost use Rattle.ebs_records.specs.Fields.{text, IsText};
    ghost use Rattle.ebs_records.specs.inner.Lists.{apart_text};

    ghost fits = { IsText };

    ghost spelled = { text };

    ghost apart = { apart_text };

    fn write(&self, out: &mut Vec<u8>) -> Result<(), AllocError> {
        (self.len() as u32).write(out)?;
        out.extend_from_slice(self.as_bytes())
    }

    fn read(alloc: Global, input: &mut Input) -> Result<Text, Unread> {
        let count = u32::read(alloc, input)?;
        let Some(bytes) = input.take(count as usize) else {
            return Err(Unread::Malformed);
        };
        match str::from_utf8(bytes) {
            Ok(found) => Ok(Text::from_string(String::from_str(alloc, found)?)),
            Err(_) => Err(Unread::Malformed),
        }
    }
}

impl Codec for [u8; 32] {
    ghost use Rattle.ebs_records.specs.Fields.{digest, IsDigest};
    ghost use Rattle.ebs_records.specs.inner.Lists.{apart_digest};

    ghost fits = { IsDigest };

    ghost spelled = { digest };

    ghost apart = { apart_digest };

    fn write(&self, out: &mut Vec<u8>) -> Result<(), AllocError> {
        out.extend_from_slice(self)
    }

    fn read(_alloc: Global, input: &mut Input) -> Result<[u8; 32], Unread> {
        let Some(bytes) = input.take(32) else {
            return Err(Unread::Malformed);
        };
        let mut digest = [0; 32];
        digest.copy_from_slice(bytes);
        Ok(digest)
    }
}

impl<T: Codec> Codec for Sequence<T> {
    ghost use Rattle.ebs_records.specs.Fields.{members, AreMembers};
    ghost use Rattle.ebs_records.specs.inner.Lists.{apart_members};

    ghost fits = { AreMembers T.fits };

    ghost spelled = { members T.spelled };

    ghost apart = { apart_members T.fits T.spelled T.Codec.apart };

    fn write(&self, out: &mut Vec<u8>) -> Result<(), AllocError> {
        (self.len() as u32).write(out)?;
        write_each(self.as_slice(), out)
    }

    fn read(alloc: Global, input: &mut Input) -> Result<Sequence<T>, Unread> {
        let count = u32::read(alloc, input)?;
        read_each(alloc, count, input)
    }
}

fn write_each<T: Codec>(items: &[T], out: &mut Vec<u8>) -> Result<(), AllocError>
    requires { All T.fits items.now }
    ensures { OnOk result (out.new.items ≡ out.old.items ++ flat_map T.spelled items.now) }
{
    for item in items {
        item.write(out)?;
    }
    Ok(())
}

/// So many values. Room is taken for each as it is read.
fn read_each<T: Codec>(alloc: Global, count: u32, input: &mut Input) -> Result<Sequence<T>, Unread>
    ensures { Reads (λ items. (length items ≡ count) × AllByRecursion T.fits items) (flat_map T.spelled) input.old input.new result }
{
    let mut items = Sequence::new(alloc);
    for _ in 0..count {
        let item = T::read(alloc, input)?;
        items.push(item)?;
    }
    Ok(items)
}
