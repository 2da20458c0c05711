// Pieces and parts of an input, of the face itself: functions whose bodies are calls of the functions for C and no more, and whose contracts say that
// these are together one call. None that is public has a `requires`.
#![tactic(auto)]

ghost use Rattle.std.specs.Prelude.{◌-◌, ◌≤◌, ◌++◌, ◌≡◌, length, take};
ghost use Rattle.sailmortar.specs.Face.{join_face};
ghost use Rattle.promises.specs.Promises.{Between, RowsOrRefusal, call_of};
ghost use Rattle.part_promises.specs.Parts.{JoinedAsOne, OneByTwo, part_numbers};

// A piece, the input's front up to a cut; what stands behind the place that the piece answers; and the whole. A cut behind the end is none.
pub fn in_pieces(
    decls: &[u8],
    from: u32,
    to: u32,
    input: &[u8],
    cut: usize,
    out1: &mut [u8],
    answer1: &mut [u64; 6],
    out2: &mut [u8],
    answer2: &mut [u64; 5],
    out3: &mut [u8],
    answer3: &mut [u64; 5],
)
    ensures demand1 { cut ≤ length input.now → Between from to (RowsOrRefusal decls.now (take cut input.now)
        out1.old (call_of answer1.new out1.new)) }
    ensures goes_on { cut ≤ length input.now → Between from to (OneByTwo decls.now input.now
        (call_of answer1.new out1.new) out2.old (call_of answer2.new out2.new)
        out3.old (call_of answer3.new out3.new)) }
{
    if input.len() < cut {
        return;
    }
    sailmortar::sailmortar_convert_piece(decls, from, to, &input[..cut], out1, answer1);
    let place = answer1[5] as usize;
    sailmortar::sailmortar_convert(decls, from, to, &input[place..], out2, answer2);
    sailmortar::sailmortar_convert(decls, from, to, input, out3, answer3);
}

const NOTHING_JOINED: [u64; 8] = [0, 0, 0, 0, 0, 0, 0, 0];

// The numbers of two parts, the second behind the first, joined to nothing.
fn join_both(
    length: u64,
    room: u64,
    cut: u64,
    room1: u64,
    first: &[u64; 6],
    room2: u64,
    second: &[u64; 6],
    joined: &mut [u64; 8],
)
    requires { cut ≤ length }
    ensures { joined.new ≡ join_face length room (part_numbers 0 cut room1 first.now ++ part_numbers cut (length - cut) room2 second.now) joined.old }
{
    let parts = [
        0,
        cut,
        room1,
        first[0],
        first[1],
        first[2],
        first[3],
        first[4],
        first[5],
        cut,
        length - cut,
        room2,
        second[0],
        second[1],
        second[2],
        second[3],
        second[4],
        second[5],
    ];
    sailmortar::sailmortar_join(length, room, &parts, joined);
}

// Two parts, the input's front up to a cut and what stands behind it, each by a call of its own as on two cores; their numbers joined; and the whole.
// A cut behind the end is none.
pub fn in_parts(
    decls: &[u8],
    from: u32,
    to: u32,
    input: &[u8],
    cut: usize,
    out1: &mut [u8],
    answer1: &mut [u64; 6],
    out2: &mut [u8],
    answer2: &mut [u64; 6],
    joined: &mut [u64; 8],
    out3: &mut [u8],
    answer3: &mut [u64; 5],
)
    ensures joined { cut ≤ length input.now → Between from to (JoinedAsOne decls.now input.now cut
        (call_of answer1.new out1.new) (call_of answer2.new out2.new) joined.new
        out1.old out2.old out3.old (call_of answer3.new out3.new)) }
{
    if input.len() < cut {
        return;
    }
    let length = input.len() as u64;
    let room1 = out1.len() as u64;
    let room2 = out2.len() as u64;
    let room3 = out3.len() as u64;
    sailmortar::sailmortar_convert_piece(decls, from, to, &input[..cut], out1, answer1);
    sailmortar::sailmortar_convert_piece(decls, from, to, &input[cut..], out2, answer2);
    *joined = NOTHING_JOINED;
    join_both(
        length, room3, cut as u64, room1, answer1, room2, answer2, joined,
    );
    sailmortar::sailmortar_convert(decls, from, to, input, out3, answer3);
}
