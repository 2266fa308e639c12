// The header of a file, line by line and block by block.
use crate::bytes::bytes_of;
use crate::refused::print_refused;
use header::{Extent, FILE_TYPE, Header, Lines, TERMINATOR, head};
use shelf::Source;
use std::str::from_utf8;

// Prints the header's lines, the blocks and the gaps between them, or the refusal; answers whether it was accepted.
pub fn print_header<S: Source>(rt: &HostRuntime, name: &str, source: &S) -> anyhow::Result<bool> {
    println!(rt; "{name}")?;
    let header = match head(source) {
        Ok(header) => header,
        Err(refusal) => return print_refused(rt, refusal),
    };
    println!(rt; "  accepted")?;
    print_lines(rt, source, &header)?;
    print_blocks(rt, &header)?;
    print_value(rt, source, "classification", header.classification)?;
    print_value(rt, source, "release", header.release_info)?;
    Ok(true)
}

// Each key and value, in the order in which they stand.
fn print_lines<S: Source>(rt: &HostRuntime, source: &S, header: &Header) -> anyhow::Result<()> {
    let whole = bytes_of(
        rt,
        source,
        Extent {
            place: 0,
            size: header.end,
        },
    )?;
    for line in Lines::new(whole.get(FILE_TYPE.len()..).unwrap_or(&[])) {
        let key = from_utf8(line.key)?;
        let value = from_utf8(line.value)?;
        println!(rt; "  key {key} := {value}")?;
    }
    Ok(())
}

fn print_value<S: Source>(
    rt: &HostRuntime,
    source: &S,
    name: &str,
    extent: Extent,
) -> anyhow::Result<()> {
    let bytes = bytes_of(rt, source, extent)?;
    let value = from_utf8(&bytes)?;
    println!(rt; "  {name} {value}")?;
    Ok(())
}

// The header and the blocks, each with its place and its size, and the gaps before them.
fn print_blocks(rt: &HostRuntime, header: &Header) -> anyhow::Result<()> {
    let terminator = Extent {
        place: header.xml.end(),
        size: TERMINATOR.len() as u64,
    };
    let blocks = [
        ("xml", Some(header.xml)),
        ("end", Some(terminator)),
        ("support", header.support),
        ("pvp", Some(header.pvp)),
        ("signal", Some(header.signal)),
    ];
    println!(rt; "  header 0 {}", header.end)?;
    let mut end = header.end;
    for (name, block) in blocks {
        let Some(block) = block else {
            println!(rt; "  {name} none")?;
            continue;
        };
        let gap = block.place.saturating_sub(end);
        if gap > 0 {
            println!(rt; "  gap {end} {gap}")?;
        }
        println!(rt; "  {name} {block}")?;
        end = block.end();
    }
    Ok(())
}
