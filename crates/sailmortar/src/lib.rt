// The public face: the functions for C (exported by sailmortar_c), Rust and Python, numbers and slices only. `answer` gets the number, the row, the
// column, the rows done and the bytes written.
#![tactic(auto)]

ghost use Rattle.std.specs.Prelude.{◌≡◌};
ghost use Rattle.sailmortar.specs.Face.{compare_face, convert_face, declare_face, decode_face, encode_face, fetch_face, index_face, join_face, piece_face};

// 01 has no number for it.
const NO_SUCH_KIND: [u64; 5] = [255, 0, 0, 0, 0];

const NO_SUCH_KIND_OF_PIECE: [u64; 6] = [255, 0, 0, 0, 0, 0];

const NO_SUCH_KIND_TO_COMPARE: [u64; 8] = [255, 0, 0, 0, 0, 0, 0, 0];

// Rows of one kind to rows of another. A number that names no kind is answered 255, before anything else is judged.
pub fn sailmortar_convert(
    decls: &[u8],
    from: u32,
    to: u32,
    input: &[u8],
    out: &mut [u8],
    answer: &mut [u64; 5],
)
    ensures numbers { answer.new ≡ (convert_face decls.now from to input.now out.old).numbers }
    ensures buffer { out.new ≡ (convert_face decls.now from to input.now out.old).buffer }
{
    let Some(source) = numbering::rows_of(from) else {
        *answer = NO_SUCH_KIND;
        return;
    };
    let Some(target) = numbering::rows_of(to) else {
        *answer = NO_SUCH_KIND;
        return;
    };
    numbering::put_answer(convert::convert(decls, source, target, input, out), answer);
}

// The same for a piece of a table: sixth, `answer` gets the place in the input where the rows done end, so that the caller can go on from there.
pub fn sailmortar_convert_piece(
    decls: &[u8],
    from: u32,
    to: u32,
    input: &[u8],
    out: &mut [u8],
    answer: &mut [u64; 6],
)
    ensures numbers { answer.new ≡ (piece_face decls.now from to input.now out.old).numbers }
    ensures buffer { out.new ≡ (piece_face decls.now from to input.now out.old).buffer }
{
    let Some(source) = numbering::rows_of(from) else {
        *answer = NO_SUCH_KIND_OF_PIECE;
        return;
    };
    let Some(target) = numbering::rows_of(to) else {
        *answer = NO_SUCH_KIND_OF_PIECE;
        return;
    };
    let piece = convert::convert_piece(decls, source, target, input, out);
    numbering::put_piece(piece, answer);
}

// An index of a stream: `index` gets the start of row 64k at place k, and `answer` the number, the row, the column, the rows and 0.
pub fn sailmortar_index(
    decls: &[u8],
    from: u32,
    input: &[u8],
    index: &mut [u32],
    answer: &mut [u64; 5],
)
    ensures numbers { answer.new ≡ (index_face decls.now from input.now index.old).numbers }
    ensures buffer { index.new ≡ (index_face decls.now from input.now index.old).buffer }
{
    let Some(source) = numbering::binary_of(from) else {
        *answer = NO_SUCH_KIND;
        return;
    };
    numbering::put_answer(indexing::index(decls, source, input, index), answer);
}

// One row by an index and the count of rows that came with it, as its TABLEDATA line.
pub fn sailmortar_fetch(
    decls: &[u8],
    from: u32,
    input: &[u8],
    index: &[u32],
    rows: u64,
    row: u64,
    out: &mut [u8],
    answer: &mut [u64; 5],
)
    ensures numbers { answer.new ≡ (fetch_face decls.now from input.now index.now rows row out.old).numbers }
    ensures buffer { out.new ≡ (fetch_face decls.now from input.now index.now rows row out.old).buffer }
{
    let Some(source) = numbering::binary_of(from) else {
        *answer = NO_SUCH_KIND;
        return;
    };
    numbering::put_answer(
        fetching::fetch(decls, source, input, index, rows, row, out),
        answer,
    );
}

// Two inputs, each of its own kind: `places` gets the rows and columns of the first cells that differ, and `answer` the number, the row, the column and
// the input of a refusal, the cells that differ, the rows that the first has beyond the second and the second beyond the first, and the places filled.
pub fn sailmortar_compare(
    decls: &[u8],
    from: u32,
    first: &[u8],
    kind: u32,
    second: &[u8],
    places: &mut [u32],
    answer: &mut [u64; 8],
)
    ensures numbers { answer.new ≡ (compare_face decls.now from first.now kind second.now places.old).numbers }
    ensures buffer { places.new ≡ (compare_face decls.now from first.now kind second.now places.old).buffer }
{
    let Some(source) = numbering::rows_of(from) else {
        *answer = NO_SUCH_KIND_TO_COMPARE;
        return;
    };
    let Some(other) = numbering::rows_of(kind) else {
        *answer = NO_SUCH_KIND_TO_COMPARE;
        return;
    };
    let c = comparing::compare(decls, source, first, other, second, places);
    numbering::put_comparison(c, answer);
}

// Parts of an input of this length, each converted by itself, joined in the room of the whole: `joined` has at entry how far it has come, all 0 at
// first, and gets how far with these parts, nine numbers each: start, length, room, and the six that its call answered.
pub fn sailmortar_join(length: u64, room: u64, parts: &[u64], joined: &mut [u64; 8])
    ensures { joined.new ≡ join_face length room parts.now joined.old }
{
    let so_far = numbering::joined_of(joined);
    numbering::put_joined(joining::join(length, room, parts, so_far), joined);
}

// Base64 to bytes.
pub fn sailmortar_base64_decode(input: &[u8], out: &mut [u8], answer: &mut [u64; 5])
    ensures numbers { answer.new ≡ (decode_face input.now out.old).numbers }
    ensures buffer { out.new ≡ (decode_face input.now out.old).buffer }
{
    numbering::put_answer(base64_coding::decode(input, out), answer);
}

// Bytes to base64, without line breaks.
pub fn sailmortar_base64_encode(input: &[u8], out: &mut [u8], answer: &mut [u64; 5])
    ensures numbers { answer.new ≡ (encode_face input.now out.old).numbers }
    ensures buffer { out.new ≡ (encode_face input.now out.old).buffer }
{
    numbering::put_answer(base64_coding::encode(input, out), answer);
}

// Declarations alone: `answer` gets the number, 0, the place, how many columns are declared, and 0.
pub fn sailmortar_declare(decls: &[u8], answer: &mut [u64; 5])
    ensures { answer.new ≡ declare_face decls.now }
{
    *answer = match declaring::declare(decls) {
        Ok(columns) => [0, 0, 0, columns.count as u64, 0],
        Err(refused) => [refused.reason.number(), 0, refused.column as u64, 0, 0],
    };
}
