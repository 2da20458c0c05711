// The sample night in all nine ways and the cases that 01 marks 'run only', through the public face.
// The cases stand in `stdin`, each a title, a way, the declarations and an input in base64, with `|` behind each. A way is a letter, the two
// kinds of rows and the room: `c` is one call, `w` one that tells where the rows done end, `p` a call for every prefix of the input, `r` one for
// every room up to the one given, `d` the declarations alone, `e` the input encoded. A line has the numbers of the answer, a sum over every byte
// of the buffer, which held 238 before the call, and the first bytes written. `i` is an index, and a row fetched by it: the second digit is how
// many places the index has, which held 4008636142, and in the place of the room stands the row. Its line has the numbers of the index's answer
// and its places first, then those of the fetch, into 100 bytes. `k` compares two nights that stand one behind the other in the input: in the
// place of the room stands how many bytes the first has, and in two digits how many numbers are lent. Its line has the numbers of the answer and
// sixteen numbers that held 4008636142, lent or not. `j` joins parts of an input of 100 bytes to nothing, in the room given: each byte of the input
// is a number of a part. Its line has the eight numbers.
#![tactic(auto)]

ghost use Rattle.std.specs.Prelude.{◌<◌, ◌≤◌, length};
ghost use Rattle.night.specs.Places.{Behind};

use std::io;
use std::io::{Read, Write};

// ---- writing

fn say(writer: &mut impl Write, text: &[u8]) -> io::Result<()> {
    writer.write_all(text)
}

fn say_number(writer: &mut impl Write, n: u64) -> io::Result<()> {
    write!(writer, " {n}")
}

fn say_answer(writer: &mut impl Write, answer: &[u64; 5]) -> io::Result<()> {
    say_number(writer, answer[0])?;
    say_number(writer, answer[1])?;
    say_number(writer, answer[2])?;
    say_number(writer, answer[3])?;
    say_number(writer, answer[4])
}

fn say_eight(writer: &mut impl Write, answer: &[u64; 8]) -> io::Result<()> {
    for number in answer {
        say_number(writer, *number)?;
    }
    Ok(())
}

// A sum over all bytes, in which each place counts.
fn say_sum(writer: &mut impl Write, out: &[u8]) -> io::Result<()> {
    let mut sum: u64 = 0;
    for byte in out {
        sum = (sum * 31 + u64::from(*byte)) % 4294967296;
    }
    say(writer, b" sum")?;
    say_number(writer, sum)
}

// The first n bytes, 80 of them at most.
fn say_bytes(writer: &mut impl Write, out: &[u8], n: usize) -> io::Result<()> {
    for k in 0..n {
        if 80 <= k {
            return say(writer, b" ..");
        }
        if k < out.len() {
            let byte = out[k];
            write!(writer, " {byte:02x}")?;
        }
    }
    Ok(())
}

fn say_written(writer: &mut impl Write, answer: &[u64; 5], out: &[u8]) -> io::Result<()> {
    say_answer(writer, answer)?;
    say_sum(writer, out)?;
    say_bytes(writer, out, answer[4] as usize)
}

fn fill(out: &mut [u8]) {
    for byte in out.iter_mut() {
        *byte = 238;
    }
}

// ---- the calls

fn convert(
    writer: &mut impl Write,
    decls: &[u8],
    from: u32,
    to: u32,
    input: &[u8],
    out: &mut [u8],
) -> io::Result<()> {
    fill(out);
    let mut answer = [9u64; 5];
    sailmortar::sailmortar_convert(decls, from, to, input, out, &mut answer);
    say_written(writer, &answer, out)
}

fn convert_prefixes(
    writer: &mut impl Write,
    decls: &[u8],
    from: u32,
    to: u32,
    input: &[u8],
    out: &mut [u8],
) -> io::Result<()> {
    for n in 0..input.len() {
        write!(writer, "\n {n}:")?;
        convert(writer, decls, from, to, &input[..n], out)?;
    }
    Ok(())
}

fn convert_rooms(
    writer: &mut impl Write,
    decls: &[u8],
    from: u32,
    to: u32,
    input: &[u8],
    out: &mut [u8],
) -> io::Result<()> {
    for n in 0..out.len() {
        write!(writer, "\n {n}:")?;
        convert(writer, decls, from, to, input, &mut out[..n])?;
    }
    Ok(())
}

// One call, and sixth the place where the rows done end.
fn convert_piece(
    writer: &mut impl Write,
    decls: &[u8],
    from: u32,
    to: u32,
    input: &[u8],
    out: &mut [u8],
) -> io::Result<()> {
    fill(out);
    let mut answer = [9u64; 6];
    sailmortar::sailmortar_convert_piece(decls, from, to, input, out, &mut answer);
    say_number(writer, answer[0])?;
    say_number(writer, answer[1])?;
    say_number(writer, answer[2])?;
    say_number(writer, answer[3])?;
    say_number(writer, answer[4])?;
    say_number(writer, answer[5])?;
    say_sum(writer, out)?;
    say_bytes(writer, out, answer[4] as usize)
}

fn declare(writer: &mut impl Write, decls: &[u8]) -> io::Result<()> {
    let mut answer = [9u64; 5];
    sailmortar::sailmortar_declare(decls, &mut answer);
    say_answer(writer, &answer)
}

fn encode(writer: &mut impl Write, input: &[u8], out: &mut [u8]) -> io::Result<()> {
    fill(out);
    let mut answer = [9u64; 5];
    sailmortar::sailmortar_base64_encode(input, out, &mut answer);
    say_written(writer, &answer, out)
}

fn say_places(writer: &mut impl Write, places: &[u32]) -> io::Result<()> {
    for place in places {
        say_number(writer, u64::from(*place))?;
    }
    Ok(())
}

fn fetch(
    writer: &mut impl Write,
    decls: &[u8],
    from: u32,
    input: &[u8],
    index: &[u32],
    rows: u64,
    row: u64,
) -> io::Result<()> {
    let mut out = [238u8; 100];
    let mut answer = [9u64; 5];
    sailmortar::sailmortar_fetch(decls, from, input, index, rows, row, &mut out, &mut answer);
    say(writer, b" fetched")?;
    say_written(writer, &answer, &out)
}

fn index_in(
    writer: &mut impl Write,
    decls: &[u8],
    from: u32,
    input: &[u8],
    index: &mut [u32],
    row: u64,
) -> io::Result<()> {
    let mut answer = [9u64; 5];
    sailmortar::sailmortar_index(decls, from, input, index, &mut answer);
    say_answer(writer, &answer)?;
    say(writer, b" starts")?;
    say_places(writer, index)?;
    fetch(writer, decls, from, input, index, answer[3], row)
}

// An index of so many places, and a row by it.
fn index_of(
    writer: &mut impl Write,
    decls: &[u8],
    from: u32,
    places: usize,
    input: &[u8],
    row: u64,
) -> io::Result<()> {
    let mut index = [4008636142u32; 9];
    if 9 < places {
        return Ok(());
    }
    index_in(writer, decls, from, input, &mut index[..places], row)
}

fn compare_in(
    writer: &mut impl Write,
    decls: &[u8],
    from: u32,
    first: &[u8],
    kind: u32,
    second: &[u8],
    places: &mut [u32],
    lent: usize,
) -> io::Result<()> {
    if places.len() < lent {
        return Ok(());
    }
    let mut answer = [9u64; 8];
    sailmortar::sailmortar_compare(
        decls,
        from,
        first,
        kind,
        second,
        &mut places[..lent],
        &mut answer,
    );
    say_eight(writer, &answer)?;
    say(writer, b" places")?;
    say_places(writer, places)
}

// The first night is at the front of the input, as many bytes as the hundreds say, and the second is the rest.
fn compare(
    writer: &mut impl Write,
    decls: &[u8],
    from: u32,
    kind: u32,
    input: &[u8],
    parts: usize,
) -> io::Result<()> {
    let mut places = [4008636142u32; 16];
    let first = parts / 100;
    if first <= input.len() {
        compare_in(
            writer,
            decls,
            from,
            &input[..first],
            kind,
            &input[first..],
            &mut places,
            parts % 100,
        )?;
    }
    Ok(())
}

// Each byte as a number.
fn numbers_of(input: &[u8], parts: &mut [u64]) {
    for (part, byte) in parts.iter_mut().zip(input) {
        *part = u64::from(*byte);
    }
}

fn join(writer: &mut impl Write, input: &[u8], room: usize) -> io::Result<()> {
    let mut parts = [0u64; 90];
    let mut joined = [0u64; 8];
    numbers_of(input, &mut parts);
    if input.len() <= 90 {
        let n = input.len();
        sailmortar::sailmortar_join(100, room as u64, &parts[..n], &mut joined);
    }
    say_eight(writer, &joined)
}

fn call(
    writer: &mut impl Write,
    letter: u8,
    decls: &[u8],
    from: u32,
    to: u32,
    input: &[u8],
    out: &mut [u8],
) -> io::Result<()> {
    match letter {
        b'p' => convert_prefixes(writer, decls, from, to, input, out),
        b'r' => convert_rooms(writer, decls, from, to, input, out),
        b'w' => convert_piece(writer, decls, from, to, input, out),
        b'd' => declare(writer, decls),
        b'e' => encode(writer, input, out),
        b'i' => index_of(writer, decls, from, to as usize, input, out.len() as u64),
        b'k' => compare(writer, decls, from, to, input, out.len()),
        b'j' => join(writer, input, out.len()),
        _ => convert(writer, decls, from, to, input, out),
    }
}

// ---- the cases

// The place of the next `|`, or the end.
fn bar(s: &[u8], from: usize) -> usize
    requires { from ≤ length s.now }
    ensures { (from ≤ result) × (result ≤ length s.now) }
{
    for i in from..s.len() {
        if s[i] == b'|' {
            return i;
        }
    }
    s.len()
}

fn behind(s: &[u8], i: usize) -> usize
    requires { i ≤ length s.now }
    ensures { Behind (length s.now) i result }
{
    if i < s.len() { i + 1 } else { i }
}

fn digit(b: u8) -> u32
    ensures { result < 10 }
{
    match b {
        b'0'..=b'9' => (b - 48) as u32,
        _ => 0,
    }
}

// The number that the digits behind the letter and the two kinds spell, below 100,000.
fn room_in(way: &[u8]) -> usize
    ensures { result < 100000 }
{
    let mut n: usize = 0;
    for byte in way.iter().skip(3) {
        n = (n * 10 + (digit(*byte) as usize)) % 100000;
    }
    n
}

// The input is decoded into a buffer that still holds what the case before left there, and so does `out` where the call does not fill it.
fn run_case(
    writer: &mut impl Write,
    title: &[u8],
    way: &[u8],
    decls: &[u8],
    text: &[u8],
    space: &mut [u8],
    out: &mut [u8],
) -> io::Result<()> {
    say(writer, title)?;
    say(writer, b":")?;
    if way.len() < 3 {
        return Ok(());
    }
    let mut answer = [9u64; 5];
    sailmortar::sailmortar_base64_decode(text, space, &mut answer);
    let n = answer[4] as usize;
    let room = room_in(way);
    if n <= space.len() {
        if room <= out.len() {
            call(
                writer,
                way[0],
                decls,
                digit(way[1]),
                digit(way[2]),
                &space[..n],
                &mut out[..room],
            )?;
        }
    }
    Ok(())
}

// A title begins with the line's end before it.
fn run_all(writer: &mut impl Write, s: &[u8], space: &mut [u8], out: &mut [u8]) -> io::Result<()> {
    let mut at = 0;
    while at < s.len() {
        let title_end = bar(s, at);
        let way = behind(s, title_end);
        let way_end = bar(s, way);
        let decls = behind(s, way_end);
        let decls_end = bar(s, decls);
        let text = behind(s, decls_end);
        let text_end = bar(s, text);
        run_case(
            writer,
            &s[at..title_end],
            &s[way..way_end],
            &s[decls..decls_end],
            &s[text..text_end],
            space,
            out,
        )?;
        at = behind(s, text_end);
    }
    Ok(())
}

// The cases are the first 200,000 bytes of the input, which has fewer.
fn main(rt: HostRuntime) -> io::Result<()> {
    let mut cases = Vec::new(rt.alloc());
    let mut space = [0u8; 65536];
    let mut out = [0u8; 99999];
    let mut writer = io::BufWriter::new(rt.alloc(), io::writer(&rt))?;
    rt.stdin().take(200000).read_to_end(&mut cases)?;
    run_all(&mut writer, &cases, &mut space, &mut out)?;
    say(&mut writer, b"\n")?;
    writer.flush()
}
