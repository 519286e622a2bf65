//! Reading numbers.
ghost use Rattle.std.specs.Int.{w16, w32, w64};
ghost use Rattle.wm_codec.specs.Format.{byte_at};
ghost use Rattle.wm_codec.specs.Fields.{number_at, i64};
ghost use Rattle.wm_codec.specs.Reading.{Gives};

use crate::fault::ReadFault;

pub fn u8_at(bytes: &[u8]) -> Result<(u8, &[u8]), ReadFault>
    ensures { Gives (λ x. (x.0, x.1.now)) result (byte_at bytes.now) }
{
    match bytes {
        [] => Err(ReadFault::NoRecord),
        [byte, rest @ ..] => Ok((*byte, rest)),
    }
}

pub fn u16_at(bytes: &[u8]) -> Result<(u16, &[u8]), ReadFault>
    ensures { Gives (λ x. (x.0, x.1.now)) result (number_at w16 bytes.now) }
{
    let Some((number, rest)) = bytes.split_first_chunk::<2>() else {
        return Err(ReadFault::NoRecord);
    };
    Ok((u16::from_be_bytes(*number), rest))
}

pub fn u32_at(bytes: &[u8]) -> Result<(u32, &[u8]), ReadFault>
    ensures { Gives (λ x. (x.0, x.1.now)) result (number_at w32 bytes.now) }
{
    let Some((number, rest)) = bytes.split_first_chunk::<4>() else {
        return Err(ReadFault::NoRecord);
    };
    Ok((u32::from_be_bytes(*number), rest))
}

pub fn u64_at(bytes: &[u8]) -> Result<(u64, &[u8]), ReadFault>
    ensures { Gives (λ x. (x.0, x.1.now)) result (number_at w64 bytes.now) }
{
    let Some((number, rest)) = bytes.split_first_chunk::<8>() else {
        return Err(ReadFault::NoRecord);
    };
    Ok((u64::from_be_bytes(*number), rest))
}

/// A number in two's complement.
pub fn i64_at(bytes: &[u8]) -> Result<(i64, &[u8]), ReadFault>
    ensures { Gives (λ x. (x.0, x.1.now)) result (i64.read bytes.now) }
{
    let Some((number, rest)) = bytes.split_first_chunk::<8>() else {
        return Err(ReadFault::NoRecord);
    };
    Ok((u64::from_be_bytes(*number).cast_signed(), rest))
}
