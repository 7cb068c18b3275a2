// DCCH. A line has the format, the colour code and whether it is broadcast.
use calls::answers::Answer;
use calls::arguments::Arguments;
use calls::bytes::LONGEST;
use calls::errors::LineError;
use calls::numerals::low_byte;
use dcch::{CrcMode, Refusal, decode, decode_soft, encode};
use dcch_interleaver::BlockFormat;

// (No `From`: neither type is of this crate.)
fn format_of(number: u64) -> BlockFormat {
    match number {
        0 => BlockFormat::Forward,
        1 => BlockFormat::ReverseNormal,
        _ => BlockFormat::ReverseAbbreviated,
    }
}

// The reliability that a byte stands for: small and large, subnormal, zeros of either sign; 16 is a NaN, 17 and 18 are the infinities.
fn reliability(byte: u8) -> f64 {
    match byte {
        0 => 0.0,
        1 => -0.0,
        2 => 1.0,
        3 => -1.0,
        4 => 2.5,
        5 => -2.5,
        6 => 1e-310,
        7 => -1e-310,
        8 => 0.1,
        9 => -0.1,
        10 => 3.0,
        11 => -3.0,
        12 => 1e308,
        13 => -1e308,
        14 => 1.7e308,
        15 => -1.7e308,
        17 => f64::INFINITY,
        18 => f64::NEG_INFINITY,
        _ => f64::NAN,
    }
}

// `decode_soft`, whose reliabilities are bytes of a line.
fn soft(
    format: BlockFormat,
    bytes: &[u8],
    dvcc: u8,
    mode: CrcMode,
    room: &mut [u8],
) -> Result<u16, Refusal> {
    let mut values = [0.0; LONGEST];
    for (value, byte) in values.iter_mut().zip(bytes) {
        *value = reliability(*byte);
    }
    let values = &values[..bytes.len().min(LONGEST)];
    decode_soft(format, values, dvcc, mode, room)
}

// `encode`, `decode` and `decode_soft`, each FORMAT DVCC BROADCAST READ WRITTEN.
pub fn run(call: &str, arguments: &mut Arguments) -> Result<Answer, LineError> {
    let (numbers, inputs, rooms) = arguments.parts();
    let ([format, dvcc, broadcast], [input], [room]) = (numbers, inputs, rooms) else {
        return Err(LineError::NoCall);
    };
    let format = format_of(*format);
    let dvcc = low_byte(*dvcc);
    let mode = flat_dcch::mode_of(*broadcast != 0);
    let input = input.as_slice();
    let room = room.lend();
    let decoded = match call {
        "encode" => return Ok(encode(format, input, dvcc, mode, room).into()),
        "decode" => decode(format, input, dvcc, mode, room),
        "decode_soft" => soft(format, input, dvcc, mode, room),
        _ => return Err(LineError::NoCall),
    };
    Ok(decoded.map(Answer::Corrected).into())
}
