// LEB128 numbers of 64 and of 16 bits (gimli's leb128.rs; SPECIFICATION 4; DWARF 5, 7.6), each
// read at a place of a part as the readings of `reader` are. A number may be padded to any length; a set bit beyond its width is 7.
// (s, at, end) stay parameters: with a struct of s and end, as was tried, contracts are no plainer (docs/DECISIONS.md).
#![tactic(auto)]

ghost use Rattle.std.specs.Prelude.{◌≡◌, ◌<◌, ◌≤◌};
ghost use Rattle.reader.specs.Answers.{outcome};
ghost use Rattle.leb128.specs.Leb128.{leb128, unsigned_limit, u16_limit};
ghost use Rattle.leb128.specs.Inner.{past_padding};

// Reading.
pub mod read {
    use reader::{Error, Read, read_u8};

    // The place past the bytes that pad a number beyond its width, however many they are; the last is the first below 128. A set bit in one of
    // them is 7, and a missing byte is 1 at its place.
    #[tactic(auto, using(crate::proofs::Leb128Limits::past_padding_step, crate::proofs::Leb128Limits::byte_forward))]
    fn skip_padding(s: &[u8], at: usize, end: usize) -> Result<usize, Error>
        ensures { outcome result ≡ past_padding s.now at end }
    {
        let mut place = at;
        loop {
            let pad = read_u8(s, place, end)?;
            if 0 < pad.value % 128 {
                return Err(Error::BadUnsignedLeb128);
            }
            if pad.value < 128 {
                return Ok(pad.next);
            }
            place = pad.next;
        }
    }

    // The byte that has the last bits of a number, fewer than seven, and past it the padding.
    #[tactic(auto, using(crate::proofs::Leb128Limits::byte_last, crate::proofs::Leb128Limits::few_bits))]
    fn last_byte(s: &[u8], at: usize, end: usize, bits: usize) -> Result<Read<u8>, Error>
        requires { bits < 7 }
        ensures { outcome result ≡ leb128 bits s.now at end }
    {
        let byte = read_u8(s, at, end)?;
        let value = byte.value % 128;
        if 1 << bits <= value {
            return Err(Error::BadUnsignedLeb128);
        }
        if byte.value < 128 {
            return Ok(Read {
                value,
                next: byte.next,
            });
        }
        let next = skip_padding(s, byte.next, end)?;
        Ok(Read { value, next })
    }

    // A number of `BITS` bits, a byte at a time: seven bits each, and the bits that are left in the last. `scale` is what the byte at `place`
    // counts for.
    #[tactic(auto, using(crate::proofs::Leb128Limits::byte_before, crate::proofs::Leb128Limits::scale_room, crate::proofs::Leb128Limits::number_room))]
    fn number<const BITS: usize>(s: &[u8], at: usize, end: usize) -> Result<Read<u64>, Error>
        requires { BITS ≤ 64 }
        ensures { outcome result ≡ leb128 BITS s.now at end }
    {
        let mut value: u64 = 0;
        let mut scale: u64 = 1;
        let mut place = at;
        for _ in 0..BITS / 7 {
            let byte = read_u8(s, place, end)?;
            if byte.value < 128 {
                return Ok(Read {
                    value: value + scale * byte.value as u64,
                    next: byte.next,
                });
            }
            value += scale * (byte.value % 128) as u64;
            scale *= 128;
            place = byte.next;
        }
        let last = last_byte(s, place, end, BITS % 7)?;
        Ok(Read {
            value: value + scale * last.value as u64,
            next: last.next,
        })
    }

    // An unsigned number of 64 bits. Nearly every number has one byte: it is read here, in a few steps that callers take in; all else is
    // read apart, and a missing byte too, so that no other step stands in the way.
    #[tactic(auto, using(crate::proofs::Leb128Limits::byte_before))]
    pub fn unsigned(s: &[u8], at: usize, end: usize) -> Result<Read<u64>, Error>
        ensures { outcome result ≡ leb128 unsigned_limit s.now at end }
    {
        if let Ok(first) = read_u8(s, at, end)
            && first.value < 128
        {
            return Ok(first.map(|byte| byte as u64));
        }
        number::<64>(s, at, end)
    }

    // The same of 16 bits, in which such a number fits.
    #[tactic(auto, using(crate::proofs::Leb128Limits::byte_before, crate::proofs::Leb128Limits::u16_below))]
    #[inline(always)]
    pub fn u16(s: &[u8], at: usize, end: usize) -> Result<Read<u16>, Error>
        ensures { outcome result ≡ leb128 u16_limit s.now at end }
    {
        if let Ok(first) = read_u8(s, at, end)
            && first.value < 128
        {
            return Ok(first.map(|byte| byte as u16));
        }
        let long = number::<16>(s, at, end)?;
        Ok(Read {
            value: long.value as u16,
            next: long.next,
        })
    }
}
