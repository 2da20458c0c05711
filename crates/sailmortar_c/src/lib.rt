// The functions for C: each calls the function of the same name of sailmortar, which says what it does, and promises the same.
#![tactic(auto)]

ghost use Rattle.std.specs.Prelude.{◌≡◌};
ghost use Rattle.sailmortar.specs.Face.{compare_face, convert_face, declare_face, decode_face, encode_face, fetch_face, index_face, join_face, piece_face};

#[unsafe(no_mangle)]
pub extern "C" fn sailmortar_convert(
    decls: &[u8],
    from: u32,
    to: u32,
    input: &[u8],
    out: &mut [u8],
    answer: &mut [u64; 5],
)
    ensures numbers { answer.new ≡ (convert_face decls.now from to input.now out.old).numbers }
    ensures buffer { out.new ≡ (convert_face decls.now from to input.now out.old).buffer }
{
    sailmortar::sailmortar_convert(decls, from, to, input, out, answer)
}

#[unsafe(no_mangle)]
pub extern "C" fn sailmortar_convert_piece(
    decls: &[u8],
    from: u32,
    to: u32,
    input: &[u8],
    out: &mut [u8],
    answer: &mut [u64; 6],
)
    ensures numbers { answer.new ≡ (piece_face decls.now from to input.now out.old).numbers }
    ensures buffer { out.new ≡ (piece_face decls.now from to input.now out.old).buffer }
{
    sailmortar::sailmortar_convert_piece(decls, from, to, input, out, answer)
}

#[unsafe(no_mangle)]
pub extern "C" fn sailmortar_index(
    decls: &[u8],
    from: u32,
    input: &[u8],
    index: &mut [u32],
    answer: &mut [u64; 5],
)
    ensures numbers { answer.new ≡ (index_face decls.now from input.now index.old).numbers }
    ensures buffer { index.new ≡ (index_face decls.now from input.now index.old).buffer }
{
    sailmortar::sailmortar_index(decls, from, input, index, answer)
}

#[unsafe(no_mangle)]
pub extern "C" fn sailmortar_fetch(
    decls: &[u8],
    from: u32,
    input: &[u8],
    index: &[u32],
    rows: u64,
    row: u64,
    out: &mut [u8],
    answer: &mut [u64; 5],
)
    ensures numbers { answer.new ≡ (fetch_face decls.now from input.now index.now rows row out.old).numbers }
    ensures buffer { out.new ≡ (fetch_face decls.now from input.now index.now rows row out.old).buffer }
{
    sailmortar::sailmortar_fetch(decls, from, input, index, rows, row, out, answer)
}

#[unsafe(no_mangle)]
pub extern "C" fn sailmortar_compare(
    decls: &[u8],
    from: u32,
    first: &[u8],
    kind: u32,
    second: &[u8],
    places: &mut [u32],
    answer: &mut [u64; 8],
)
    ensures numbers { answer.new ≡ (compare_face decls.now from first.now kind second.now places.old).numbers }
    ensures buffer { places.new ≡ (compare_face decls.now from first.now kind second.now places.old).buffer }
{
    sailmortar::sailmortar_compare(decls, from, first, kind, second, places, answer)
}

#[unsafe(no_mangle)]
pub extern "C" fn sailmortar_join(length: u64, room: u64, parts: &[u64], joined: &mut [u64; 8])
    ensures { joined.new ≡ join_face length room parts.now joined.old }
{
    sailmortar::sailmortar_join(length, room, parts, joined)
}

#[unsafe(no_mangle)]
pub extern "C" fn sailmortar_base64_decode(input: &[u8], out: &mut [u8], answer: &mut [u64; 5])
    ensures numbers { answer.new ≡ (decode_face input.now out.old).numbers }
    ensures buffer { out.new ≡ (decode_face input.now out.old).buffer }
{
    sailmortar::sailmortar_base64_decode(input, out, answer)
}

#[unsafe(no_mangle)]
pub extern "C" fn sailmortar_base64_encode(input: &[u8], out: &mut [u8], answer: &mut [u64; 5])
    ensures numbers { answer.new ≡ (encode_face input.now out.old).numbers }
    ensures buffer { out.new ≡ (encode_face input.now out.old).buffer }
{
    sailmortar::sailmortar_base64_encode(input, out, answer)
}

#[unsafe(no_mangle)]
pub extern "C" fn sailmortar_declare(decls: &[u8], answer: &mut [u64; 5])
    ensures { answer.new ≡ declare_face decls.now }
{
    sailmortar::sailmortar_declare(decls, answer)
}
