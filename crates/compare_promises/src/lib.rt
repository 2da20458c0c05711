// Two nights compared, of the face itself: functions whose bodies are calls of the functions for C and no more, and whose contracts are the theorems of
// request #110, over the slices at entry and at exit. None has a `requires`: "Callers check nothing first."
#![tactic(auto)]

ghost use Rattle.compare_promises.specs.Comparisons.{ComparedAlike, ComparedBothWays, ComparedExactly, NotKinds, SameNight, comparison_of};
ghost use Rattle.promises.specs.Promises.{Between};

// One call.
pub fn compared(
    decls: &[u8],
    from: u32,
    first: &[u8],
    kind: u32,
    second: &[u8],
    places: &mut [u32],
    answer: &mut [u64; 8],
)
    ensures unnamed { NotKinds from kind places.old answer.new places.new }
    ensures compared { Between from kind (ComparedExactly decls.now first.now second.now places.old
        (comparison_of answer.new places.new)) }
{
    sailmortar::sailmortar_compare(decls, from, first, kind, second, places, answer);
}

// An input converted, and compared with what was written.
pub fn as_converted(
    decls: &[u8],
    from: u32,
    to: u32,
    input: &[u8],
    out: &mut [u8],
    converting: &mut [u64; 5],
    places: &mut [u32],
    comparing: &mut [u64; 8],
)
    ensures { Between from to (SameNight decls.now input.now out.old places.old
        comparing.new places.new) }
{
    sailmortar::sailmortar_convert(decls, from, to, input, out, converting);
    let n = converting[4] as usize;
    sailmortar::sailmortar_compare(decls, from, input, to, &out[..n], places, comparing);
}

// A BINARY2 input and another, which may be the same but for bytes that show nothing, each compared with a third.
pub fn unseen(
    decls: &[u8],
    input: &[u8],
    changed: &[u8],
    kind: u32,
    other: &[u8],
    places1: &mut [u32],
    answer1: &mut [u64; 8],
    places2: &mut [u32],
    answer2: &mut [u64; 8],
)
    ensures { ComparedAlike decls.now input.now changed.now places1.old places2.old
        answer1.new answer2.new places1.new places2.new }
{
    sailmortar::sailmortar_compare(decls, 2, input, kind, other, places1, answer1);
    sailmortar::sailmortar_compare(decls, 2, changed, kind, other, places2, answer2);
}

// Two inputs compared, and then the other way round.
pub fn both_ways(
    decls: &[u8],
    from: u32,
    first: &[u8],
    kind: u32,
    second: &[u8],
    places1: &mut [u32],
    answer1: &mut [u64; 8],
    places2: &mut [u32],
    answer2: &mut [u64; 8],
)
    ensures { Between from kind (ComparedBothWays decls.now first.now second.now places1.old places2.old
        (comparison_of answer1.new places1.new) (comparison_of answer2.new places2.new)) }
{
    sailmortar::sailmortar_compare(decls, from, first, kind, second, places1, answer1);
    sailmortar::sailmortar_compare(decls, kind, second, from, first, places2, answer2);
}
