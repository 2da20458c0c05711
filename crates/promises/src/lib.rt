// The demands, of the face itself: functions whose bodies are calls of the functions for C and no more, and whose contracts are the demands, over
// the slices at entry and at exit. None that is public has a `requires`: "Callers check nothing first."
#![tactic(auto)]

ghost use Rattle.promises.specs.Promises.{Between, MeansWhatWasRead, NothingElse, RowsOrRefusal, ThereAndBack, Unnamed, call_of, made};

// Demands 1 and 2: one call.
pub fn once(decls: &[u8], from: u32, to: u32, input: &[u8], out: &mut [u8], answer: &mut [u64; 5])
    ensures unnamed { Unnamed from to out.old answer.new out.new }
    ensures demand1 { Between from to (RowsOrRefusal decls.now input.now out.old (call_of answer.new out.new)) }
    ensures demand2 { Between from to (MeansWhatWasRead decls.now input.now out.old (call_of answer.new out.new)) }
{
    sailmortar::sailmortar_convert(decls, from, to, input, out, answer);
}

// Demand 3: two calls under the same declarations and for the same target.
pub fn twice(
    decls: &[u8],
    to: u32,
    from1: u32,
    input1: &[u8],
    out1: &mut [u8],
    answer1: &mut [u64; 5],
    from2: u32,
    input2: &[u8],
    out2: &mut [u8],
    answer2: &mut [u64; 5],
)
    ensures demand3 { NothingElse decls.now to
        (made from1 input1.now out1.old answer1.new out1.new)
        (made from2 input2.now out2.old answer2.new out2.new) }
{
    sailmortar::sailmortar_convert(decls, from1, to, input1, out1, answer1);
    sailmortar::sailmortar_convert(decls, from2, to, input2, out2, answer2);
}

// Demand 2, the second sentence: TABLEDATA to BINARY2, and what was written back to TABLEDATA.
pub fn there_and_back(
    decls: &[u8],
    input: &[u8],
    binary: &mut [u8],
    there: &mut [u64; 5],
    text: &mut [u8],
    back: &mut [u64; 5],
)
    ensures demand2 { ThereAndBack decls.now input.now binary.old text.old
        (call_of there.new binary.new) (call_of back.new text.new) }
{
    sailmortar::sailmortar_convert(decls, 0, 2, input, binary, there);
    let n = there[4] as usize;
    sailmortar::sailmortar_convert(decls, 2, 0, &binary[..n], text, back);
}
