// How deep elements go.
ghost use Rattle.std.specs.Prelude.{◌≡◌, true, [], Some};
ghost use Rattle.shelf.specs.declared.refusal.Reason.TheVariants.{XmlMalformed};
ghost use Rattle.examples.specs.Depths.{nested, DepthLimit};

use shelf::Refusal;
use xml::{root, well_formed};

const SIXTEEN: &[u8] = b"<a><a><a><a><a><a><a><a><a><a><a><a><a><a><a><a/>\
</a></a></a></a></a></a></a></a></a></a></a></a></a></a></a>";

const SEVENTEEN: &[u8] = b"<a><a><a><a><a><a><a><a><a><a><a><a><a><a><a><a><a/>\
</a></a></a></a></a></a></a></a></a></a></a></a></a></a></a></a>";

// Sixteen elements inside one another. A function over the text would be no shorter, since each text is proved to be what it is.
fn sixteen() -> &'static [u8]
    ensures { result.now ≡ nested 15 [] }
{
    SIXTEEN
}

// Seventeen of them.
fn seventeen() -> &'static [u8]
    ensures { result.now ≡ nested 16 [] }
{
    SEVENTEEN
}

// Sixteen elements inside one another are a document.
pub fn deep_enough() -> bool
    ensures answer { result ≡ true }
    ensures always { DepthLimit }
{
    well_formed(sixteen())
}

// Seventeen are refused 21.
pub fn too_deep() -> Option<Refusal>
    ensures answer { result ≡ Some (record { reason = XmlMalformed; place = 0 }) }
    ensures always { DepthLimit }
{
    root(seventeen()).err()
}
