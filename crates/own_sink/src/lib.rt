//! A sink of another maker: it owns its bytes, is always little-endian, and says nothing of memory that is lent.
//! An implementer owes the contract of `Writer` and nothing more.

#![tactic(auto)]

ghost use Rattle.std.specs.Prelude.{◌≡◌, ℕ, false, []};
ghost use Rattle.own_sink.specs.Owned.{owned};

use arrayvec::ArrayVec;
use common::endianity::LittleEndian;
use common::error::Error;
use writer::writer::Writer;

/// Up to 16 bytes.
#[derive(Drop)]
pub struct ArraySink {
    bytes: ArrayVec<u8, 16>,
}

impl ArraySink {
    /// An empty sink.
    pub fn new() -> ArraySink
        ensures { owned result.bytes.items ≡ record { content = []; capacity = 16; big = false } }
    {
        ArraySink {
            bytes: ArrayVec::new(),
        }
    }
}

impl Writer for ArraySink {
    type Endian = LittleEndian;

    ghost means = { λ s. owned s.bytes.items };

    fn endian(&self) -> LittleEndian {
        LittleEndian
    }

    fn len(&self) -> usize {
        self.bytes.len()
    }

    fn room(&self) -> usize {
        self.bytes.remaining_capacity()
    }

    fn write(&mut self, bytes: &[u8]) -> Result<(), Error> {
        self.bytes
            .try_extend_from_slice(bytes)
            .map_err(|_| Error::NoRoom)
    }

    fn write_at(&mut self, offset: usize, bytes: &[u8]) -> Result<(), Error> {
        let len = self.len();
        if offset > len {
            return Err(Error::OffsetOutOfBounds);
        }
        let n = bytes.len();
        if n > len - offset {
            return Err(Error::LengthOutOfBounds);
        }
        let written = self.bytes.as_mut_slice();
        written[offset..offset + n].copy_from_slice(bytes);
        Ok(())
    }
}

#[cfg(test)]
mod tests {
    use super::*;
    use common::encoding::Format;
    use common::endianity::RunTimeEndian;
    use fields::append::{write_initial_length, write_sdata, write_udata};
    use fields::patch::write_initial_length_at;
    use sinks::buffer::BufferSink;
    use sinks::words::WordSink;
    use std::process::Abort;
    use std::test::Fail;

    // Goes to the edges of an empty sink of 16 bytes.
    fn edges<W: Writer>(rt: &impl Abort, w: &mut W) {
        assert_eq!(rt; w.len(), 0);
        assert_eq!(rt; w.room(), 16);
        assert_eq!(rt; w.write_at(0, &[]), Ok(()));
        assert_eq!(rt; w.write_at(0, &[1]), Err(Error::LengthOutOfBounds));
        assert_eq!(rt; w.write_at(1, &[]), Err(Error::OffsetOutOfBounds));
        assert_eq!(rt;
            w.write(&[1, 2, 3, 4, 5, 6, 7, 8, 9, 10, 11, 12, 13, 14, 15]),
            Ok(())
        );
        assert_eq!(rt; w.room(), 1);
        assert_eq!(rt; w.write(&[16, 17]), Err(Error::NoRoom));
        assert_eq!(rt; w.len(), 15);
        assert_eq!(rt;
            w.write_at(14, &[0xee, 0xff]),
            Err(Error::LengthOutOfBounds)
        );
        assert_eq!(rt; w.write_at(16, &[]), Err(Error::OffsetOutOfBounds));
        assert_eq!(rt; w.write(&[16]), Ok(()));
        assert_eq!(rt; w.write(&[]), Ok(()));
        assert_eq!(rt; w.write(&[17]), Err(Error::NoRoom));
        assert_eq!(rt; w.write_at(15, &[0xff]), Ok(()));
        assert_eq!(rt; w.len(), 16);
    }

    #[test]
    fn edges_of_each_sink(rt: HostRuntime) {
        let mut own = ArraySink::new();
        edges(&rt, &mut own);
        let mut bytes = [0u8; 16];
        let mut buffer = BufferSink::new(&mut bytes, RunTimeEndian::Big);
        edges(&rt, &mut buffer);
        assert_eq!(rt; buffer.byte_at(14), Some(15));
        assert_eq!(rt; buffer.byte_at(15), Some(0xff));
        assert_eq!(rt; buffer.byte_at(16), None);
        let mut words = [0u32; 4];
        let mut packed = WordSink::new(&mut words);
        edges(&rt, &mut packed);
        assert_eq!(rt; packed.byte_at(14), Some(15));
        assert_eq!(rt; packed.byte_at(15), Some(0xff));
        assert_eq!(rt; packed.byte_at(16), None);
    }

    #[test]
    fn fields_in_words(rt: HostRuntime) {
        let mut words = [0u32, 0, 0x01020304];
        let mut packed = WordSink::new(&mut words);
        assert_eq!(rt; write_udata(&mut packed, 0x010203, 3), Ok(()));
        assert_eq!(rt; write_udata(&mut packed, 256, 1), Err(Error::ValueTooLarge));
        assert_eq!(rt;
            write_udata(&mut packed, 1, 5),
            Err(Error::UnsupportedWordSize(5))
        );
        assert_eq!(rt; write_sdata(&mut packed, -2, 2), Ok(()));
        assert_eq!(rt;
            write_sdata(&mut packed, -32769, 2),
            Err(Error::ValueTooLarge)
        );
        drop(packed);
        assert_eq!(rt; words[0], 0x010203ff);
        assert_eq!(rt; words[1], 0xfe000000);
        assert_eq!(rt; words[2], 0x01020304);
    }

    #[test]
    fn initial_lengths(rt: HostRuntime) -> Result<(), Fail> {
        let mut short = [7u8; 11];
        let mut buffer = BufferSink::new(&mut short, RunTimeEndian::Little);
        assert!(rt; write_initial_length(&mut buffer, Format::Dwarf64).is_err());
        assert_eq!(rt; buffer.len(), 0);
        drop(buffer);
        assert_eq!(rt; short[0], 7);
        let mut own = ArraySink::new();
        let wide = write_initial_length(&mut own, Format::Dwarf64)?;
        let narrow = write_initial_length(&mut own, Format::Dwarf32)?;
        assert_eq!(rt; own.len(), 16);
        assert_eq!(rt;
            write_initial_length_at(&mut own, narrow, 0xffff_fff0, Format::Dwarf32),
            Err(Error::ValueTooLarge)
        );
        assert_eq!(rt;
            write_initial_length_at(&mut own, narrow, 0xffff_ffef, Format::Dwarf32),
            Ok(())
        );
        assert_eq!(rt;
            write_initial_length_at(&mut own, wide, 0xffff_fff0, Format::Dwarf64),
            Ok(())
        );
        Ok(())
    }
}
