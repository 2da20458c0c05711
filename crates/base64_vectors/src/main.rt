// Runs base64 on RFC 4648's vectors and on the cases of 01, there and back and damaged. A line has the call, its input with `_` for white
// space and for what has no letter, the answer (number, row, column, rows, bytes) and the whole buffer, which held `.` before.
#![tactic(auto)]

use std::io;
use std::io::Write;
use table::Answer;

fn visible(c: u8) -> u8 {
    match c {
        33..=126 => c,
        _ => b'_',
    }
}

// A text in one line.
fn write_visible(writer: &mut impl Write, text: &[u8]) -> io::Result<()> {
    for c in text {
        writer.write_all(&[visible(*c)])?;
    }
    Ok(())
}

// The last two digits.
fn write_number(writer: &mut impl Write, n: u64) -> io::Result<()> {
    write!(writer, " {:02}", n % 100)
}

fn write_line(
    writer: &mut impl Write,
    call: &[u8],
    input: &[u8],
    answer: Answer,
    out: &[u8],
) -> io::Result<()> {
    writer.write_all(call)?;
    write_visible(writer, input)?;
    write_number(writer, answer.number)?;
    write_number(writer, answer.row)?;
    write_number(writer, answer.column)?;
    write_number(writer, answer.rows)?;
    write_number(writer, answer.bytes)?;
    writer.write_all(b" ")?;
    writer.write_all(out)?;
    writer.write_all(b"\n")
}

fn decode_into(writer: &mut impl Write, input: &[u8], out: &mut [u8]) -> io::Result<()> {
    let answer = base64_coding::decode(input, out);
    write_line(writer, b"decode ", input, answer, out)
}

fn decode(writer: &mut impl Write, input: &[u8], room: usize) -> io::Result<()> {
    let mut out = [b'.'; 96];
    if room <= 96 {
        decode_into(writer, input, &mut out[..room])?;
    }
    Ok(())
}

fn encode_into(writer: &mut impl Write, input: &[u8], out: &mut [u8]) -> io::Result<()> {
    let answer = base64_coding::encode(input, out);
    write_line(writer, b"encode ", input, answer, out)
}

fn encode(writer: &mut impl Write, input: &[u8], room: usize) -> io::Result<()> {
    let mut out = [b'.'; 96];
    if room <= 96 {
        encode_into(writer, input, &mut out[..room])?;
    }
    Ok(())
}

// Decodes, and encodes what came out.
fn back(writer: &mut impl Write, input: &[u8]) -> io::Result<()> {
    let mut bytes = [0u8; 96];
    let mut out = [b'.'; 96];
    let n = base64_coding::decode(input, &mut bytes).bytes as usize;
    if n <= 96 {
        let answer = base64_coding::encode(&bytes[..n], &mut out);
        write_line(writer, b"back ", input, answer, &out)?;
    }
    Ok(())
}

// RFC 4648, section 10
fn encode_vectors(writer: &mut impl Write) -> io::Result<()> {
    encode(writer, b"", 8)?;
    encode(writer, b"f", 8)?;
    encode(writer, b"fo", 8)?;
    encode(writer, b"foo", 8)?;
    encode(writer, b"foob", 8)?;
    encode(writer, b"fooba", 8)?;
    encode(writer, b"foobar", 8)
}

fn decode_vectors(writer: &mut impl Write) -> io::Result<()> {
    decode(writer, b"", 8)?;
    decode(writer, b"Zg==", 8)?;
    decode(writer, b"Zm8=", 8)?;
    decode(writer, b"Zm9v", 8)?;
    decode(writer, b"Zm9vYg==", 8)?;
    decode(writer, b"Zm9vYmE=", 8)?;
    decode(writer, b"Zm9vYmFy", 8)
}

// White space may stand anywhere.
fn white(writer: &mut impl Write) -> io::Result<()> {
    decode(writer, b" \t\r\n", 8)?;
    decode(writer, b"Z m\t8\r=\n", 8)?;
    decode(writer, b"\nZg=\n=\n", 8)?;
    decode(writer, b"Zm9vYmFy\n", 8)?;
    decode(writer, b"Zm9v\r\nYmFy", 8)?;
    decode(
        writer,
        b"  Zm9vYmFyZm9vYmFyZm9vYmFyZm9vYmFyZm9v YmFyZm9vYmFy",
        40,
    )
}

// Unused bits that are not 0, and `=` in the wrong place, are 7.
fn pads(writer: &mut impl Write) -> io::Result<()> {
    decode(writer, b"Zh==", 8)?;
    decode(writer, b"Zm9=", 8)?;
    decode(writer, b"=", 8)?;
    decode(writer, b"====", 8)?;
    decode(writer, b"A===", 8)?;
    decode(writer, b"Zg==Zg==", 8)?;
    decode(writer, b"Zm8= Zm9v", 8)?;
    decode(writer, b"Z=g=", 8)?;
    decode(writer, b"Zg=v", 8)
}

// A text that is cut, or has a character too many, is 7.
fn cut(writer: &mut impl Write) -> io::Result<()> {
    decode(writer, b"Z", 8)?;
    decode(writer, b"Zg", 8)?;
    decode(writer, b"Zg=", 8)?;
    decode(writer, b"Zg===", 8)?;
    decode(writer, b"Zm9vY", 8)?;
    decode(writer, b"Zm9vYmF", 8)?;
    decode(writer, b"Zm9vYmFyZm9vYmFyZm9vYmFyZm9vYmF", 40)
}

// Bytes beside the ranges of the letters are 7.
fn no_letters(writer: &mut impl Write) -> io::Result<()> {
    decode(writer, b"Zm9-", 8)?;
    decode(writer, b"Zm9\x00", 8)?;
    decode(writer, b"Zm9\xff", 8)?;
    decode(writer, b"@m9v", 8)?;
    decode(writer, b"Zm9[", 8)?;
    decode(writer, b"Zm9`", 8)?;
    decode(writer, b"Zm9{", 8)?;
    decode(writer, b"Zm9:", 8)?;
    decode(writer, b"Zm9vYmFyZm9vYmF*Zm9vYmFyZm9vYmFy", 40)
}

// The table's last place has no letter, and from 128 on there is none: 7, also behind good lines and where the last seven bits are a letter's.
fn beside_the_table(writer: &mut impl Write) -> io::Result<()> {
    decode(writer, b"Zm9\x7f", 8)?;
    decode(writer, b"Zm9\x80", 8)?;
    decode(writer, b"\xdam9v", 8)?;
    decode(writer, b"Zm9vYmFyZm9vYmFyZm9vYmFyZm9vYmFy\n\x80", 40)
}

// A byte too little room is 17, after 7; just enough is none.
fn decode_room(writer: &mut impl Write) -> io::Result<()> {
    decode(writer, b"Zm9v", 2)?;
    decode(writer, b"Zm9v", 3)?;
    decode(writer, b"Zg==", 0)?;
    decode(writer, b"Zh==", 0)?;
    decode(writer, b"", 0)?;
    decode(writer, b"Zm9vYmFyZm9vYmFyZm9vYmFyZm9vYmFy", 23)?;
    decode(writer, b"Zm9vYmFyZm9vYmFyZm9vYmFyZm9vYmFy", 24)
}

fn encode_room(writer: &mut impl Write) -> io::Result<()> {
    encode(writer, b"f", 3)?;
    encode(writer, b"f", 4)?;
    encode(writer, b"foob", 7)?;
    encode(writer, b"foob", 8)?;
    encode(writer, b"", 0)
}

// Every letter, and lines of 76.
fn long(writer: &mut impl Write) -> io::Result<()> {
    back(
        writer,
        b"ABCDEFGHIJKLMNOPQRSTUVWXYZabcdefghijklmnopqrstuvwxyz0123456789+/",
    )?;
    back(
        writer,
        b"A/B+C/D+E/F+G/H+I/J+K/L+M/N+O/P+Q/R+S/T+U/V+W/X+Y/Z+a/b+c/d+e/f+g/h+i/j+k/l+\nm/n+o/p+",
    )?;
    encode(
        writer,
        b"Many stars that we see are two, and some of them are many",
        80,
    )?;
    decode(
        writer,
        b"TWFueSBzdGFycyB0aGF0IHdlIHNlZSBhcmUgdHdvLCBhbmQgc29tZSBvZiB0aGVtIGFyZSBtYW55\nLg==",
        60,
    )
}

// One line a call, all on standard output.
fn main(rt: HostRuntime) -> io::Result<()> {
    let mut writer = io::BufWriter::new(rt.alloc(), io::writer(&rt))?;
    encode_vectors(&mut writer)?;
    decode_vectors(&mut writer)?;
    white(&mut writer)?;
    pads(&mut writer)?;
    cut(&mut writer)?;
    no_letters(&mut writer)?;
    beside_the_table(&mut writer)?;
    decode_room(&mut writer)?;
    encode_room(&mut writer)?;
    long(&mut writer)?;
    writer.flush()
}
