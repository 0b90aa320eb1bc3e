// What becomes of an EPANET text, written to standard output: `A number line 0 0 0` where it is refused;
// else `S nodes links bytes`, the sheet's bytes, and the names, one a line.
#![tactic(auto)]

use from_text::Taken;
use std::io;
use std::io::Write;

fn tell_sheet<W: Write>(writer: &mut W, t: Taken, made: &[u8], names: &[u8]) -> io::Result<bool> {
    let (Some(made), Some(names)) = (made.get(..t.bytes), names.get(..t.names)) else {
        return Ok(false);
    };
    let mut line = [0u8; 128];
    let n = sheet_line::sheet_line(t.nodes, t.links, t.bytes, &mut line, 0);
    standard::put(writer, &line[..n])?;
    standard::put(writer, made)?;
    standard::put(writer, names)?;
    Ok(true)
}

// Reads the text and writes what becomes of it; whether all was written. 512 nodes and 1,024 links with
// their names fit into the buffers.
pub fn show<W: Write>(writer: &mut W, text: &[u8]) -> io::Result<bool> {
    let mut sheet = [0u8; 73263];
    let mut names = [0u8; 49152];
    let t = from_text::from_text(text, &mut sheet, &mut names);
    if t.number != 0 {
        standard::put_refusal(writer, t.number, t.place)?;
        return Ok(true);
    }
    tell_sheet(writer, t, &sheet, &names)
}
