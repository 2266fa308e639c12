// What C programs call: functions on numbers and byte slices, declared in include/cphd.h. A slice is passed as a pointer and a length.
#![tactic(auto)]

ghost use Rattle.std.specs.Prelude.{Decides};
ghost use Rattle.xml.specs.Grammar.{IsDocument};
ghost use Rattle.capi.specs.Counts.{RootChildren};

use xml::{children, root, well_formed};

// Whether the text is a document.
#[unsafe(no_mangle)]
pub extern "C" fn cphd_xml_well_formed(text: &[u8]) -> bool
    ensures { Decides result (IsDocument text.now) }
{
    well_formed(text)
}

// How many child elements the root of the document has, and 0 where the text is no document.
#[unsafe(no_mangle)]
pub extern "C" fn cphd_xml_root_children(text: &[u8]) -> usize
    ensures { RootChildren text.now result }
{
    // C has no `Option`: 0 stands for no document.
    match root(text) {
        Ok(element) => children(element.content).count(),
        Err(_) => 0,
    }
}
