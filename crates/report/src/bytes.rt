// The bytes of a part of a source, in a Vec of the program's own.
use anyhow::anyhow;
use header::Extent;
use shelf::Source;

// The bytes of an extent of the source.
pub(crate) fn bytes_of<S: Source>(
    rt: &HostRuntime,
    source: &S,
    extent: Extent,
) -> anyhow::Result<Vec<u8>> {
    let size = usize::try_from(extent.size)?;
    let mut bytes = vec![in rt.alloc(); 0u8; size]?;
    source
        .read(extent.place, &mut bytes)
        .map_err(|_| anyhow!("the file is shorter than its header says"))?;
    Ok(bytes)
}
