// Reading a GDSII stream: the call vk_gdsii_read. The stream comes as a list of bytes, then the lengths of the
// two lists that are lent to be written to; an answer is the refusal's number, how many outlines and vertices
// there are, and both lists.
use crate::arguments::Lent;
use sample::answers::List;
use std::io;
use std::io::Write;

// Reads a stream into a list of ones and a list of nines.
pub fn read<W: Write>(
    to: &mut W,
    stream: &[u8],
    lent_vertices: Lent,
    lent_counts: Lent,
) -> io::Result<()> {
    let mut vertices = [1.0; 128];
    let mut counts = [9; 64];
    let vertices = &mut vertices[..lent_vertices.of(128)];
    let counts = &mut counts[..lent_counts.of(64)];
    let mut outlines = 9;
    let mut total = 9;
    let number = viskunor::streams::vk_gdsii_read(
        stream,
        vertices,
        counts,
        &mut outlines,
        &mut total,
    );
    writeln!(
        to,
        "{number:x} {outlines:x} {total:x}{}{}",
        List(vertices),
        List(counts)
    )
}
