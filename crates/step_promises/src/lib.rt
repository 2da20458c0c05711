// The demands of base64 and of declarations alone, of the face itself: functions whose bodies are calls of the functions for C and no more. None has a
// `requires`.
#![tactic(auto)]

ghost use Rattle.step_promises.specs.Steps.{DeclaresExactly, DecodesExactly, EncodedAndDecoded, EncodedOrRefused};
ghost use Rattle.promises.specs.Promises.{call_of};

// Demands 1 and 2 of base64: one decoding step.
pub fn decoded(input: &[u8], out: &mut [u8], answer: &mut [u64; 5])
    ensures { DecodesExactly input.now out.old (call_of answer.new out.new) }
{
    sailmortar::sailmortar_base64_decode(input, out, answer);
}

// Bytes to base64, and what was written back to bytes.
pub fn encoded_and_decoded(
    input: &[u8],
    text: &mut [u8],
    encoding: &mut [u64; 5],
    bytes: &mut [u8],
    decoding: &mut [u64; 5],
)
    ensures ended { EncodedOrRefused input.now text.old (call_of encoding.new text.new) }
    ensures back { EncodedAndDecoded input.now text.old bytes.old
        (call_of encoding.new text.new) (call_of decoding.new bytes.new) }
{
    sailmortar::sailmortar_base64_encode(input, text, encoding);
    let n = encoding[4] as usize;
    sailmortar::sailmortar_base64_decode(&text[..n], bytes, decoding);
}

// Demands 1 and 2 of declarations alone.
pub fn declared(decls: &[u8], answer: &mut [u64; 5])
    ensures { DeclaresExactly decls.now answer.new }
{
    sailmortar::sailmortar_declare(decls, answer);
}
