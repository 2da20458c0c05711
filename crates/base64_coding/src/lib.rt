// Base64: the two calls, decoding and encoding, a step of its own over bytes.
#![tactic(auto)]

mod decoding;

ghost use Rattle.std.specs.Prelude.{◌≡◌};
ghost use Rattle.base64_rules.specs.Base64.{decode_call, encode_call};
ghost use Rattle.base64_coding.specs.Clauses.{answer_as};

use base64_letters::encoding::write_letters;
use base64_letters::letters::LetterTable;
use table::{Answer, Reason};

// "any row input or input of a base64 step up to 1,073,741,824 bytes"
const MOST_INPUT: usize = 1_073_741_824;

// How many bytes were written, or why none, as an answer.
fn answer(written: Result<usize, Reason>) -> Answer
    ensures { result ≡ answer_as written }
{
    let (number, bytes) = match written {
        Ok(n) => (0, n as u64),
        Err(reason) => (reason.number(), 0),
    };
    Answer {
        number,
        row: 0,
        column: 0,
        rows: 0,
        bytes,
    }
}

fn decode_into(input: &[u8], out: &mut [u8]) -> Result<usize, Reason>
    ensures answer { answer_as result ≡ (decode_call input.now out.old).answer }
    ensures buffer { out.new ≡ (decode_call input.now out.old).buffer }
{
    if MOST_INPUT < input.len() {
        return Err(Reason::TooLarge);
    }
    let table = LetterTable::new();
    let n = decoding::decoded_size(input, &table)?;
    if out.len() < n {
        return Err(Reason::NoRoom);
    }
    decoding::write_bytes(input, &table, out);
    Ok(n)
}

fn encode_into(input: &[u8], out: &mut [u8]) -> Result<usize, Reason>
    ensures answer { answer_as result ≡ (encode_call input.now out.old).answer }
    ensures buffer { out.new ≡ (encode_call input.now out.old).buffer }
{
    if MOST_INPUT < input.len() {
        return Err(Reason::TooLarge);
    }
    let n = (input.len() + 2) / 3 * 4;
    if out.len() < n {
        return Err(Reason::NoRoom);
    }
    write_letters(input, out);
    Ok(n)
}

// Decodes the text `input` into `out`: 6 where it is over its size, 7 where it is not valid, 17 where there is too little room.
pub fn decode(input: &[u8], out: &mut [u8]) -> Answer
    ensures answer { result ≡ (decode_call input.now out.old).answer }
    ensures buffer { out.new ≡ (decode_call input.now out.old).buffer }
{
    answer(decode_into(input, out))
}

// Encodes the bytes `input` into `out`, without line breaks: 6 where they are over their size, 17 where there is too little room.
pub fn encode(input: &[u8], out: &mut [u8]) -> Answer
    ensures answer { result ≡ (encode_call input.now out.old).answer }
    ensures buffer { out.new ≡ (encode_call input.now out.old).buffer }
{
    answer(encode_into(input, out))
}
