// An index and one row by it, of the face itself: functions whose bodies are calls of the functions for C and no more. None has a `requires`.
#![tactic(auto)]

ghost use Rattle.row_promises.specs.OneRow.{FetchedRow, Indexed, NotBinary, OfBinary, SameFetched};
ghost use Rattle.promises.specs.Promises.{call_of};

// One row: the index of a stream, and a fetch with that index and the count that came with it.
pub fn one_row(
    decls: &[u8],
    from: u32,
    input: &[u8],
    index: &mut [u32],
    indexing: &mut [u64; 5],
    row: u64,
    out: &mut [u8],
    fetching: &mut [u64; 5],
)
    ensures unnamed { NotBinary from index.old indexing.new index.new × NotBinary from out.old fetching.new out.new }
    ensures indexed { OfBinary from (Indexed decls.now input.now index.old (call_of indexing.new index.new)) }
    ensures fetched { OfBinary from (FetchedRow decls.now input.now (call_of indexing.new index.new).answer.rows row
        out.old (call_of fetching.new out.new)) }
{
    sailmortar::sailmortar_index(decls, from, input, index, indexing);
    let rows = indexing[3];
    sailmortar::sailmortar_fetch(decls, from, input, index, rows, row, out, fetching);
}

// One row fetched twice, with any index: from an input, and from another that is the same where a fetch looks.
pub fn same_row(
    decls: &[u8],
    from: u32,
    rows: u64,
    row: u64,
    input1: &[u8],
    index1: &[u32],
    out1: &mut [u8],
    answer1: &mut [u64; 5],
    input2: &[u8],
    index2: &[u32],
    out2: &mut [u8],
    answer2: &mut [u64; 5],
)
    ensures { OfBinary from (SameFetched decls.now input1.now input2.now index1.now index2.now row
        out1.old out2.old (call_of answer1.new out1.new) (call_of answer2.new out2.new)) }
{
    sailmortar::sailmortar_fetch(decls, from, input1, index1, rows, row, out1, answer1);
    sailmortar::sailmortar_fetch(decls, from, input2, index2, rows, row, out2, answer2);
}
