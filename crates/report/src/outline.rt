// The outline of a file's XML block: the names of its elements as a tree.
use crate::bytes::bytes_of;
use crate::refused::print_refused;
use crate::siblings::Siblings;
use header::head;
use shelf::Source;
use std::alloc::Global;
use std::fmt::Write;
use std::str::from_utf8;
use xml::{Element, children, root};

// Prints the outline of the XML block, or the refusal; answers whether the block is a document.
pub fn print_outline<S: Source>(rt: &HostRuntime, name: &str, source: &S) -> anyhow::Result<bool> {
    println!(rt; "{name}")?;
    let header = match head(source) {
        Ok(header) => header,
        Err(refusal) => return print_refused(rt, refusal),
    };
    let text = bytes_of(rt, source, header.xml)?;
    match root(&text) {
        Ok(element) => {
            print_tree(rt, element)?;
            Ok(true)
        }
        Err(refusal) => print_refused(rt, refusal),
    }
}

// The root's line, and the lines of what stands in it.
fn print_tree(rt: &HostRuntime, root: Element) -> anyhow::Result<()> {
    let name = from_utf8(root.name)?;
    let below = outline_of(rt.alloc(), root.content, "    ")?;
    print!(rt; "  {name}\n{below}")?;
    Ok(())
}

// The lines of the elements of a content and of what stands in them: a line an element, its name behind `indent`, and two
// blanks more with each level.
fn outline_of(heap: Global, content: &[u8], indent: &str) -> anyhow::Result<String> {
    let mut lines = String::new(heap);
    let deeper = format!(in heap; "{indent}  ")?;
    let mut last = Siblings {
        line: String::new(heap),
        below: String::new(heap),
        count: 0,
    };
    for child in children(content) {
        let name = from_utf8(child.name)?;
        let next = Siblings {
            line: format!(in heap; "{indent}{name}")?,
            below: outline_of(heap, child.content, deeper.as_str())?,
            count: 1,
        };
        last.follow(next, &mut lines)?;
    }
    write!(lines, "{last}")?;
    Ok(lines)
}
