// The demonstration: a built-in product's header, read from a fixed file, across the joint of two shelves, and damaged.
use crate::header_report::print_header;
use shelf::{FixedFile, JoinedShelf, MemoryShelf, Refusal, Shelf, Source};
use std::alloc::{AllocError, Global};

const HEADER: &[u8] = b"CPHD/1.1.0
XML_BLOCK_SIZE := 64
XML_BLOCK_BYTE_OFFSET := 512
SUPPORT_BLOCK_SIZE := 16
SUPPORT_BLOCK_BYTE_OFFSET := 584
PVP_BLOCK_SIZE := 432
PVP_BLOCK_BYTE_OFFSET := 600
SIGNAL_BLOCK_SIZE := 24
SIGNAL_BLOCK_BYTE_OFFSET := 1040
CLASSIFICATION := UNCLASSIFIED
RELEASE_INFO := UNRESTRICTED
PRODUCER := built in
\x0c
";

const XML_PLACE: usize = 512;

const XML_SIZE: usize = 64;

const FILE_SIZE: usize = 1064;

// A byte inside the separator of the first line, between the key and its value.
const DAMAGED: usize = 26;

// Prints each step; answers whether the product was accepted twice and its damaged copy refused.
pub fn run_demo(rt: &HostRuntime) -> anyhow::Result<bool> {
    let mut product = built_in(rt.alloc())?;
    println!(rt; "1. A product of {FILE_SIZE} bytes lies in memory as a fixed file. Its header:")?;
    let whole = print_header(rt, "built-in", &FixedFile::new(&product, 1))?;
    println!(rt;
        "2. Two buffers of 300 and 800 bytes are joined as one shelf and restocked with it."
    )?;
    let joined = on_joined_shelf(rt, &product)?;
    println!(rt; "3. One byte of it is damaged, at {DAMAGED}:")?;
    if let Some(byte) = product.get_mut(DAMAGED) {
        *byte = b'-';
    }
    let damaged = print_header(rt, "damaged", &FixedFile::new(&product, 1))?;
    Ok(whole && joined && !damaged)
}

// The product: the header, an XML block and its closing bytes, and blocks of zeros.
fn built_in(heap: Global) -> Result<Vec<u8>, AllocError> {
    let mut product = Vec::new(heap);
    product.extend_from_slice(HEADER)?;
    product.resize(XML_PLACE, 0)?;
    product.extend_from_slice(b"<CPHD></CPHD>")?;
    product.resize(XML_PLACE + XML_SIZE, b' ')?;
    product.extend_from_slice(b"\x0c\n")?;
    product.resize(FILE_SIZE, 0)?;
    Ok(product)
}

fn on_joined_shelf(rt: &HostRuntime, product: &[u8]) -> anyhow::Result<bool> {
    let mut near = vec![in rt.alloc(); 0u8; 300]?;
    let mut far = vec![in rt.alloc(); 0u8; 800]?;
    let mut shelf = JoinedShelf::new(MemoryShelf::new(&mut near), MemoryShelf::new(&mut far));
    print_answer(rt, "restock under stamp 7", shelf.restock(product, 7))?;
    print_answer(rt, "restock under stamp 7", shelf.restock(product, 7))?;
    let mut byte = [0u8; 1];
    print_answer(rt, "a byte at the joint", shelf.read(299, &mut byte))?;
    print_answer(rt, "a byte at the end", shelf.read(shelf.len(), &mut byte))?;
    print_header(rt, "joined", &shelf)
}

fn print_answer(rt: &HostRuntime, what: &str, answer: Result<(), Refusal>) -> anyhow::Result<()> {
    match answer {
        Ok(()) => println!(rt; "  {what}: done")?,
        Err(refusal) => println!(rt; "  {what}: {refusal}")?,
    }
    Ok(())
}
